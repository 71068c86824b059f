// What does not fit, asked before anything is written and by lengths alone: SPEC, "Calls and their numbers".
ghost use Rattle.std.specs.Prelude.{◌≡◌, length};
ghost use Rattle.answers.specs.Judged.{first};
ghost use Rattle.answers.specs.Numbers.{number_of};
ghost use Rattle.night.specs.Night.{record_room, night_tests};

use crate::Files;
use answers::{Answer, Refusal};
use dwsha2::limit::too_long;

// SPEC, "Limits": the words of a table of three bays.
const THREE_BAYS: usize = 82;

// SPEC, "The saved record": where the words of a record begin; there are eight, half as many as in a block.
const WORDS_AT: usize = 24;

// The bytes of the record of a message of which so many bytes came.
pub(crate) fn record_length(edition: u64, count: usize) -> usize
    ensures { result ≡ record_room edition count }
{
    let tail = halfread::tail::tail_length(edition, count as u64);
    WORDS_AT + fips::lookup::block_bytes(edition) / 2 + tail
}

// How much is lent: the words of the two tables, the bytes that the record takes, and those for it and for the three digests.
#[derive(Clone, Copy)]
pub(crate) struct Lengths {
    pub table: usize,
    pub anew: usize,
    pub size: usize,
    pub saved: usize,
    pub first: usize,
    pub second: usize,
    pub third: usize,
}

// The first reason to refuse, by the lengths of what is lent.
pub(crate) fn refusal(files: Files, lent: Lengths) -> Answer
    ensures { let f = files.entry in
        number_of result ≡ first (night_tests lent.table lent.anew f.edition (length f.a.now) (length f.b.now) (length f.c.now)
        lent.size lent.saved lent.first lent.second lent.third) }
{
    let edition = files.edition;
    if lent.table < THREE_BAYS {
        return Err(Refusal::BadLayout);
    }
    if lent.anew < THREE_BAYS {
        return Err(Refusal::BadLayout);
    }
    if !fips::lookup::known(edition) {
        return Err(Refusal::NoSuchEdition);
    }
    if too_long(edition, 0, files.a.len()) {
        return Err(Refusal::TooLong);
    }
    if too_long(edition, 0, files.b.len()) {
        return Err(Refusal::TooLong);
    }
    if too_long(edition, 0, files.c.len()) {
        return Err(Refusal::TooLong);
    }
    if lent.saved < lent.size {
        return Err(Refusal::ShortOutput);
    }
    let room = fips::lookup::digest_bytes(edition);
    if lent.first < room {
        return Err(Refusal::ShortOutput);
    }
    if lent.second < room {
        return Err(Refusal::ShortOutput);
    }
    if lent.third < room {
        return Err(Refusal::ShortOutput);
    }
    Ok(())
}
