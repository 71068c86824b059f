// The checker: SPEC, "The program". In the folder where it is started it opens `yard.man` and each file that is named there, and
// writes a line for each and the counts; on standard error, why a file is missing. What is said of a file is `report`'s and in which words
// `lines`'; here files are opened, read and closed, and lines are written. Its memory is one list, one piece, one bay and one line, however
// long the files are.
#![tactic(auto)]

ghost use Rattle.report.specs.Code.Program.{Verdicted};

use lines::{Tally, Verdict};
use lists::entries;
use report::file;
use slices::places::part;
use std::io::{self, Stderr, Stdout};

fn verdict(list: &[u8], i: usize, table: &mut [u64], rt: &HostRuntime) -> Verdict
    ensures { Verdicted list.now i table.old result }
{
    let ending = reading::through(rt, entries::name(list, i), list, table);
    file::verdict(ending, table, list, i)
}

fn write_line(to: &Stdout, verdict: Verdict, list: &[u8], i: usize) -> io::Result<()> {
    let mut out = [0u8; lines::ROOM];
    let n = lines::line(verdict, list, i, &mut out);
    to.write_all(part(&out, 0, n))
}

// A reason that cannot be written is lost, and the check goes on: what is said of the files is on standard output.
fn write_reason(to: &Stderr, verdict: Verdict, list: &[u8], i: usize) {
    if let Verdict::Missing(why) = verdict {
        let mut out = [0u8; lines::ROOM];
        let n = lines::reason(why, list, i, &mut out);
        let _ = to.write_all(part(&out, 0, n));
    }
}

fn write_counts(to: &Stdout, tally: Tally) -> io::Result<()> {
    let mut out = [0u8; lines::ROOM];
    let n = lines::counts(tally, &mut out);
    to.write_all(part(&out, 0, n))
}

fn write_not_a_list(to: &Stdout) -> io::Result<()> {
    let mut out = [0u8; lines::ROOM];
    let n = lines::not_a_list(&mut out);
    to.write_all(part(&out, 0, n))
}

// A line that cannot be written ends the program, so that what is written is always the beginning of what is to be.
fn check(list: &[u8], rt: &HostRuntime) -> io::Result<()> {
    let mut table = [0u64; bays::table::ONE_BAY];
    let mut tally = Tally::default();
    for i in 0..entries::count(list) {
        let v = verdict(list, i, &mut table, rt);
        write_line(&rt.stdout(), v, list, i)?;
        write_reason(&rt.stderr(), v, list, i);
        tally = lines::counted(tally, v);
    }
    write_counts(&rt.stdout(), tally)
}

// A buffer of one byte more than the longest list has: bytes that fill it are no list (`list-short` of `lists`).
fn main(rt: HostRuntime) {
    let mut buffer = [0u8; lists::LONGEST + 1];
    let _ = match reading::whole(&rt, b"yard.man", &mut buffer) {
        Some(n) if lists::is_list(&buffer[..n]) => check(&buffer[..n], &rt),
        _ => write_not_a_list(&rt.stdout()),
    };
}
