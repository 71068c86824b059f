// The samples of SPEC, "Samples", that are not marked P, run through the calls: what each answers, and the digest of the longest message.
#![tactic(auto)]

use answers::Answer;
use std::{fmt, io};

fn say(rt: &impl Print, what: &str, answer: Answer) -> io::Result<()> {
    let number = answers::number(answer);
    println!(rt; "{what}: {number}")
}

// Bytes in hexadecimal.
#[derive(Clone, Copy)]
struct Hex<'a>(&'a [u8]);

impl fmt::Display for Hex<'_> {
    fn fmt<W: fmt::Write>(&self, f: &mut fmt::Formatter<W>) -> fmt::Result {
        for byte in self.0 {
            write!(f, "{byte:02x}")?;
        }
        Ok(())
    }
}

fn say_digest(rt: &impl Print, digest: &[u8]) -> io::Result<()> {
    println!(rt; "its digest: {}", Hex(digest))
}

// The shortest run for one bay and for 64, and a word less.
fn layouts(rt: &impl Print) -> io::Result<()> {
    let mut table = [7u64; 1668];
    for (bays, words) in [(1, 30), (1, 29), (64, 1668), (64, 1667)] {
        let number = answers::number(calls::lay_out(&mut table[..words], bays));
        println!(rt; "N={bays} in L={words}: {number}")?;
    }
    Ok(())
}

// The record of 2^40 bytes in edition 2. They end at a block, so it has no tail; for its words the edition's starting words serve.
fn longest() -> [u8; 56] {
    let header = [
        0, 2, 0, 8, 0, 24, 0, 56, 0, 0, 1, 0, 0, 0, 0, 0, 0, 0, 0, 56, 0, 0, 0, 0,
    ];
    let start = dwsha2::starting::starting_words(2);
    let mut record = [0u8; 56];
    slices::front::put_front(&mut record, &header);
    bigendian::put_words(&mut record[24..56], &start, 4);
    record
}

// At the limit no byte more is taken, but closing bits are.
fn limits(rt: &impl Print) -> io::Result<()> {
    let record = longest();
    let mut table = [0u64; 30];
    let mut digest = [0u8; 32];
    say(rt, "lay out", calls::lay_out(&mut table, 1))?;
    say(rt, "load c=2^40", calls::load(&mut table, 0, &record))?;
    say(rt, "add no bytes", calls::add(&mut table, 0, b""))?;
    say(rt, "add one byte", calls::add(&mut table, 0, b"a"))?;
    say(
        rt,
        "close with 7 bits",
        calls::close(&mut table, 0, 0xfe, 7, &mut digest),
    )?;
    say_digest(rt, &digest)
}

// A 1 behind the closing bits, an output too short by a byte, and both: then 8 goes before 9.
fn closings(rt: &impl Print) -> io::Result<()> {
    let mut table = [0u64; 30];
    let mut out = [0u8; 32];
    let mut short = [0u8; 31];
    say(rt, "lay out", calls::lay_out(&mut table, 1))?;
    say(rt, "open edition 2", calls::open(&mut table, 0, 2))?;
    say(
        rt,
        "close 68 with b=4",
        calls::close(&mut table, 0, 0x68, 4, &mut out),
    )?;
    say(
        rt,
        "close 68 with b=5 into 31 bytes",
        calls::close(&mut table, 0, 0x68, 5, &mut short),
    )?;
    say(
        rt,
        "close 68 with b=4 into 31 bytes",
        calls::close(&mut table, 0, 0x68, 4, &mut short),
    )?;
    say(
        rt,
        "close 68 with b=5",
        calls::close(&mut table, 0, 0x68, 5, &mut out),
    )?;
    say_digest(rt, &out)
}

fn main(rt: HostRuntime) -> io::Result<()> {
    layouts(&rt)?;
    limits(&rt)?;
    closings(&rt)
}
