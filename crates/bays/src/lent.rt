// The words of a bay outside a table, for whoever keeps a half-read message in words of his own: how a bay is laid out stays known to this
// crate alone. SPEC, "The table of bays".
ghost use Rattle.std.specs.Prelude.{◌≡◌};
ghost use Rattle.slices.specs.Padded.{padded};
ghost use Rattle.bays.specs.Places.{bay_words};
ghost use Rattle.bays.specs.Bay.{half_of, bay_of};

use crate::bay::{pack, unpack};
use halfread::HalfRead;
use slices::front::put_front;

// How many they are.
pub const WORDS: usize = crate::bay::WORDS;

// What the first of the words hold as a bay; where there are fewer, zeros stand for those that lack.
pub fn half_in(words: &[u64]) -> HalfRead
    ensures { result ≡ half_of (padded bay_words words.now) }
{
    let mut bay = [0u64; WORDS];
    put_front(&mut bay, words);
    unpack(&bay)
}

// The words of a bay that holds the message.
pub fn words_of(half: HalfRead) -> [u64; WORDS]
    ensures { result ≡ bay_of half }
{
    let mut bay = [0u64; WORDS];
    pack(&mut bay, half);
    bay
}
