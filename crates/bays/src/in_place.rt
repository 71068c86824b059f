// A bay where it lies in the table: asked for, read, written and emptied at its word offset, with nothing else touched.
// SPEC, "The table of bays". Every public function passes the gate itself, so that nothing is asked of a caller.
ghost use Rattle.std.specs.Prelude.{◌≡◌, IfOk};
ghost use Rattle.answers.specs.Judged.{after, first, handed, Judged};
ghost use Rattle.answers.specs.Numbers.{number_of};
ghost use Rattle.halfread.specs.State.{blank};
ghost use Rattle.bays.specs.Table.{bay_at, put_bay};
ghost use Rattle.bays.specs.Bay.{bay_of, empty_bay};
ghost use Rattle.bays.specs.Gate.{half_at, gate_tests, taken_tests, sound_tests, free_tests};

use crate::bay::{WORDS, pack, unpack};
use crate::table::place;
use answers::{Answer, Refusal};
use halfread::HalfRead;
use halfread::sound::is_sound;
use slices::zero::{clear, words_zero};

// The words of a bay, behind the gate.
fn words_at(table: &[u64], bay: u64) -> Result<&[u64; WORDS], Refusal>
    ensures answer { number_of result ≡ first (gate_tests table.now bay) }
    ensures value { IfOk result (λ words. words.now ≡ bay_at table.now bay) }
{
    let at = place(table, bay)?;
    Ok(table[at..].first_chunk().unwrap())
}

// The gate, and then whether the bay is taken. An empty bay is sound, so that 4 may be asked before 6.
pub fn gate_taken(table: &[u64], bay: u64) -> Answer
    ensures { number_of result ≡ first (taken_tests table.now bay) }
{
    if words_zero(words_at(table, bay)?) {
        return Err(Refusal::BayEmpty);
    }
    Ok(())
}

// The gate, and then whether the bay can be filled: one that is not empty is taken or not sound.
pub fn gate_free(table: &[u64], bay: u64) -> Answer
    ensures { number_of result ≡ first (free_tests table.now bay) }
{
    let words = words_at(table, bay)?;
    if words_zero(words) {
        return Ok(());
    }
    if is_sound(unpack(words)) {
        return Err(Refusal::BayTaken);
    }
    Err(Refusal::NotSound)
}

// What a bay holds that must be taken.
pub fn taken_at(table: &[u64], bay: u64) -> Result<HalfRead, Refusal>
    ensures { Judged (taken_tests table.now bay) blank (half_at table.now bay) (number_of result) (handed blank result) }
{
    let words = words_at(table, bay)?;
    if words_zero(words) {
        return Err(Refusal::BayEmpty);
    }
    Ok(unpack(words))
}

// What a bay holds that must be sound: of an empty bay nothing.
pub fn sound_at(table: &[u64], bay: u64) -> Result<HalfRead, Refusal>
    ensures { Judged (sound_tests table.now bay) blank (half_at table.now bay) (number_of result) (handed blank result) }
{
    let words = words_at(table, bay)?;
    let half = unpack(words);
    if words_zero(words) {
        return Ok(half);
    }
    if !is_sound(half) {
        return Err(Refusal::NotSound);
    }
    Ok(half)
}

// The message in the bay's place; nothing is written where there is no such bay.
pub fn put_at(table: &mut [u64], bay: u64, half: HalfRead)
    ensures { table.new ≡ after (first (gate_tests table.old bay)) table.old
        (put_bay table.old bay (bay_of half)) }
{
    let Ok(at) = place(table, bay) else {
        return;
    };
    pack(&mut table[at..at + WORDS], half);
}

// The bay emptied, which is zeros in its place.
pub fn clear_at(table: &mut [u64], bay: u64)
    ensures { table.new ≡ after (first (gate_tests table.old bay)) table.old
        (put_bay table.old bay empty_bay) }
{
    let Ok(at) = place(table, bay) else {
        return;
    };
    clear(&mut table[at..at + WORDS]);
}
