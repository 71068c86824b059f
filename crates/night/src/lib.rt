// The night of the accident, as a client of the calls: three files are taken alternately, one of them is saved half-read, the table is
// lost, and in the morning every file gets its digest. SPEC, "The table of bays" and "The saved record".
#![tactic(auto)]

ghost use Rattle.answers.specs.Numbers.{number_of};
ghost use Rattle.night.specs.Night.{digests, Night};

use answers::Answer;
use fits::Lengths;
use slices::places::least;

mod fits; // fits.rt: what is refused
mod evening; // evening.rt: up to the record
mod morning; // morning.rt: from the record to the digests

// The edition, the three files, and how many bytes of each had come in the evening.
#[derive(Clone, Copy)]
struct Files<'a> {
    edition: u64,
    a: &'a [u8],
    b: &'a [u8],
    c: &'a [u8],
    cut: usize,
}

// In the evening `cut` bytes of each file have come when the first file is saved; `anew` are the words of the morning, which held anything.
pub fn night(
    table: &mut [u64],
    anew: &mut [u64],
    edition: u64,
    a: &[u8],
    cut: usize,
    b: &[u8],
    c: &[u8],
    saved: &mut [u8],
    first: &mut [u8],
    second: &mut [u8],
    third: &mut [u8],
) -> Answer
    ensures { Night table.old anew.old edition a.now cut b.now c.now saved.old
        (digests first.old second.old third.old) (number_of result)
        (digests first.new second.new third.new) }
{
    let files = Files {
        edition,
        a,
        b,
        c,
        cut,
    };
    let size = fits::record_length(edition, least(cut, a.len()));
    fits::refusal(
        files,
        Lengths {
            table: table.len(),
            anew: anew.len(),
            size,
            saved: saved.len(),
            first: first.len(),
            second: second.len(),
            third: third.len(),
        },
    )?;
    evening::evening(table, files, saved);
    morning::morning(anew, size, saved, files);
    morning::close_all(anew, first, second, third);
    Ok(())
}
