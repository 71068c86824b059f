// Runs NIST's Monte Carlo vectors of data/ through hash at once, and writes how many of the file's lines hold.
// What it must write is the crate's file `stdout`; data/README.md says where the vectors are from and how their lines read.
#![tactic(auto)]

mod digest;
mod file;
mod line;

use std::io;

fn main(rt: HostRuntime) -> io::Result<()> {
    file::report(&rt, "nist_byte_monte.txt")
}
