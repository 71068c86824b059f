// A keyed hash that a key begins, and whether one is sound: SPEC, "Keyed digests".
ghost use Rattle.std.specs.Prelude.{◌≡◌};
ghost use Rattle.answers.specs.Judged.{handed, Judged};
ghost use Rattle.answers.specs.Numbers.{number_of};
ghost use Rattle.slices.specs.Below.{Bytes};
ghost use Rattle.slices.specs.Tests.{holds};
ghost use Rattle.keyed.specs.State.{blank, more_rules, sound};
ghost use Rattle.keyed.specs.Steps.{start_tests, started};

use crate::Keyed;
use crate::pads::{INNER, OUTER, block_key, words_after};
use answers::Refusal;
use dwsha2::limit::too_long;
use fips::lookup::{block_bytes, known, narrow};
use halfread::sound::below_width;
use halfread::{HalfRead, TAIL};

// The key's inner block is taken, and its outer block is kept as the chaining words after it.
fn begun(edition: u64, key: &[u8]) -> Keyed
    ensures { result ≡ started edition key.now }
{
    let block = block_key(edition, key);
    let words = words_after(edition, block, INNER);
    let outer = words_after(edition, block, OUTER);
    let inner = HalfRead {
        edition,
        count: block_bytes(edition) as u64,
        words,
        tail: [0; TAIL],
    };
    Keyed { inner, outer }
}

pub fn start(edition: u64, key: &[u8]) -> Result<Keyed, Refusal>
    ensures judged { Judged (start_tests edition key.now) blank (started edition key.now) (number_of result) (handed blank result) }
    ensures bytes { Bytes key.now }
{
    if !known(edition) {
        return Err(Refusal::NoSuchEdition);
    }
    if too_long(edition, 0, key.len()) {
        return Err(Refusal::TooLong);
    }
    Ok(begun(edition, key))
}

// What is asked beside the rules of a taken bay: a block or more, and outer words below 2^w.
pub(crate) fn keeps_more(keyed: Keyed) -> bool
    ensures { result ≡ holds (more_rules keyed) }
{
    let edition = keyed.inner.edition;
    if keyed.inner.count < block_bytes(edition) as u64 {
        return false;
    }
    let outer = keyed.outer;
    below_width(outer, narrow(edition))
}

pub fn is_sound(keyed: Keyed) -> bool
    ensures { result ≡ sound keyed }
{
    if !halfread::sound::is_sound(keyed.inner) {
        return false;
    }
    keeps_more(keyed)
}
