// The file of Monte Carlo vectors, which is read whole: how many lines it has, and how many of them hold.
ghost use Rattle.std.specs.Prelude.{◌≤◌, length, IfOk};

use hexlines::Tally;
use std::fs::{File, Files};
use std::io::{self, ErrorKind, Read};

fn all(text: &[u8]) -> Tally {
    let mut tally = Tally::default();
    let mut last = None;
    for line in text.split_inclusive(|b| *b == b'\n') {
        let judged = crate::line::judged(line.strip_suffix(b"\n").unwrap_or(line), last);
        last = judged.map(|(digest, _)| digest);
        tally.count(judged.is_some_and(|(_, holds)| holds));
    }
    tally
}

// Reads until the buffer is full or the file ends, and answers what came. A read that a signal interrupts is made again.
fn filled<'a, R: Read>(from: &mut R, buffer: &'a mut [u8]) -> io::Result<&'a [u8]>
    ensures { IfOk result (λ came. length came.now ≤ length buffer.old) }
{
    let mut n = 0;
    for _ in 0..u64::MAX {
        match from.read(&mut buffer[n..]) {
            Ok(0) => break,
            Ok(more) => n += more,
            Err(e) if e.kind() == ErrorKind::Interrupted => {}
            Err(e) => return Err(e),
        }
    }
    Ok(&buffer[..n])
}

// Writes the file's name, how many of its lines hold, and how many it has. What is longer than the buffer is cut, and some line is missing.
pub(crate) fn report<R: Files + Print>(rt: &R, name: &str) -> io::Result<()> {
    let mut buffer = [0u8; 65536];
    let tally = all(filled(&mut File::open(rt, name)?, &mut buffer)?);
    println!(rt; "{name} {tally}")
}
