// Runs the published messages and digests of data/ through hash at once, and writes for each file how many of its lines hold.
// What it must write is the crate's file `stdout`; data/README.md says where the vectors are from and how their lines read.
#![tactic(auto)]

mod file;
mod line;

use std::io;

fn main(rt: HostRuntime) -> io::Result<()> {
    for name in [
        "nist_byte_short.txt",
        "nist_byte_long.txt",
        "rfc6234_byte.txt",
        "rfc6234_bit.txt",
    ] {
        file::report(&rt, name)?;
    }
    Ok(())
}
