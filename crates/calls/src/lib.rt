// Layer 2, the calls on the table of bays: SPEC, "Calls and their numbers". A call asks the table, takes its step, and writes one bay.
#![tactic(auto)]

ghost use Rattle.std.specs.Prelude.{[]};
ghost use Rattle.answers.specs.Numbers.{number_of};
ghost use Rattle.calls.specs.Calls.{Call, told_of, Lends, Outcome, Asks};

use answers::{Answer, Refusal};
use bays::in_place::{clear_at, gate_free, gate_taken, put_at, sound_at, taken_at};
use bays::table::gate;

// The header, and zeros in so many bays; what lies behind them is the caller's.
pub fn lay_out(table: &mut [u64], bays: u64) -> Answer
    ensures outcome { Outcome table.old (Call.lay_out bays) (number_of result) table.new [] }
    ensures lends { Lends table.old (Call.lay_out bays) }
{
    bays::table::lay_out(table, bays)
}

pub fn open(table: &mut [u64], bay: u64, edition: u64) -> Answer
    ensures outcome { Outcome table.old (Call.opening bay edition) (number_of result) table.new [] }
    ensures lends { Lends table.old (Call.opening bay edition) }
{
    gate(table, bay)?;
    if !fips::lookup::known(edition) {
        return Err(Refusal::NoSuchEdition);
    }
    gate_free(table, bay)?;
    put_at(table, bay, halfread::state::open(edition));
    Ok(())
}

pub fn add(table: &mut [u64], bay: u64, piece: &[u8]) -> Answer
    ensures outcome { Outcome table.old (Call.adding bay piece.now) (number_of result) table.new [] }
    ensures lends { Lends table.old (Call.adding bay piece.now) }
{
    // each answer by a name: without, what the first hands out is copied once more
    let taken = taken_at(table, bay);
    let half = taken?;
    let added = halfread::add::add(half, piece);
    let next = added?;
    put_at(table, bay, next);
    Ok(())
}

// The bay is emptied only once the digest is written.
pub fn close(table: &mut [u64], bay: u64, closing: u8, bits: u64, out: &mut [u8]) -> Answer
    ensures outcome { Outcome table.old (Call.closing bay closing bits out.old) (number_of result) table.new
        out.new }
    ensures lends { Lends table.old (Call.closing bay closing bits out.old) }
{
    let half = taken_at(table, bay)?;
    halfread::close::close(half, closing, bits, out)?;
    clear_at(table, bay);
    Ok(())
}

pub fn save(table: &[u64], bay: u64, out: &mut [u8]) -> Answer
    ensures outcome { Outcome table.now (Call.saving bay out.old) (number_of result) table.exit.now out.new }
    ensures lends { Lends table.now (Call.saving bay out.old) }
{
    let half = taken_at(table, bay)?;
    records::save(half, out)
}

pub fn load(table: &mut [u64], bay: u64, record: &[u8]) -> Answer
    ensures outcome { Outcome table.old (Call.loading bay «record».now) (number_of result) table.new [] }
    ensures lends { Lends table.old (Call.loading bay «record».now) }
{
    gate(table, bay)?;
    let half = records::load(record)?;
    gate_free(table, bay)?;
    put_at(table, bay, half);
    Ok(())
}

// What ask tells: edition and bytes taken, both 0 for an empty bay.
#[derive(Clone, Copy)]
pub struct Asked {
    pub edition: u64,
    pub count: u64,
}

pub fn ask(table: &[u64], bay: u64) -> Result<Asked, Refusal>
    ensures asks { Asks table.now bay (number_of result) (told_of result) }
    ensures lends { Lends table.now (Call.asking bay) }
{
    let half = sound_at(table, bay)?;
    Ok(Asked {
        edition: half.edition,
        count: half.count,
    })
}

// Any bay that is not all zeros is emptied, sound or not: so a damaged bay can be used again.
pub fn drop(table: &mut [u64], bay: u64) -> Answer
    ensures outcome { Outcome table.old (Call.dropping bay) (number_of result) table.new [] }
    ensures lends { Lends table.old (Call.dropping bay) }
{
    gate_taken(table, bay)?;
    clear_at(table, bay);
    Ok(())
}
