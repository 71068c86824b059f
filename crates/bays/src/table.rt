// The lent run of words: its header, the gate that every call on a bay passes, and where a bay lies. SPEC, "The table of bays".
ghost use Rattle.std.specs.Prelude.{◌≡◌, ◌+◌, ◌≤◌, length, IfOk};
ghost use Rattle.answers.specs.Judged.{first, Judged};
ghost use Rattle.answers.specs.Numbers.{number_of};
ghost use Rattle.bays.specs.Places.{bay_words, place_of};
ghost use Rattle.bays.specs.Table.{room_for, headed, laid_out};
ghost use Rattle.bays.specs.Gate.{gate_tests, layout_tests};

use crate::bay::WORDS;
use answers::{Answer, Refusal};
use slices::zero::clear;

// The header: how many bays, where the first begins, how many words each has, and a zero.
const BAYS_AT: usize = 0;

const FIRST_AT: usize = 1;

const SIZE_AT: usize = 2;

const ZERO_AT: usize = 3;

// The header's words, in front of the first bay, and the most bays that a table has.
const FIRST: usize = 4;

const MOST: u64 = 64;

// The words that a table of one bay takes.
pub const ONE_BAY: usize = FIRST + WORDS;

// Whether so many bays, at least one and no more than the most, find room in a run of so many words.
fn room_for(bays: u64, len: usize) -> bool
    ensures { result ≡ room_for bays len }
{
    if bays < 1 {
        return false;
    }
    if MOST < bays {
        return false;
    }
    FIRST + WORDS * bays as usize <= len
}

fn headed(table: &[u64]) -> bool
    ensures { result ≡ headed table.now }
{
    if table.len() < FIRST {
        return false;
    }
    if !room_for(table[BAYS_AT], table.len()) {
        return false;
    }
    if table[FIRST_AT] != FIRST as u64 {
        return false;
    }
    if table[SIZE_AT] != WORDS as u64 {
        return false;
    }
    table[ZERO_AT] == 0
}

// The header and then the bay: what every call on a bay asks first.
pub fn gate(table: &[u64], bay: u64) -> Answer
    ensures { number_of result ≡ first (gate_tests table.now bay) }
{
    if !headed(table) {
        return Err(Refusal::BadTable);
    }
    if table[BAYS_AT] <= bay {
        return Err(Refusal::NoSuchBay);
    }
    Ok(())
}

// Where a bay begins, behind the gate: all its words lie within the table.
pub(crate) fn place(table: &[u64], bay: u64) -> Result<usize, Refusal>
    ensures answer { number_of result ≡ first (gate_tests table.now bay) }
    ensures value { IfOk result (λ at. (at ≡ place_of bay) × (place_of bay + bay_words ≤ length table.now)) }
{
    gate(table, bay)?;
    Ok(FIRST + WORDS * bay as usize)
}

// The header, and zeros in so many bays; what lies behind them is the caller's.
pub fn lay_out(table: &mut [u64], bays: u64) -> Answer
    ensures { Judged (layout_tests table.old bays) table.old (laid_out bays table.old) (number_of result)
        table.new }
{
    if !room_for(bays, table.len()) {
        return Err(Refusal::BadLayout);
    }
    let end = FIRST + WORDS * bays as usize;
    table[BAYS_AT] = bays;
    table[FIRST_AT] = FIRST as u64;
    table[SIZE_AT] = WORDS as u64;
    table[ZERO_AT] = 0;
    clear(&mut table[FIRST..end]);
    Ok(())
}
