// Whether a half-read message is sound: SPEC, "The table of bays". `is_sound` asks the rules in order.
ghost use Rattle.std.specs.Prelude.{◌≡◌, ◌^◌};
ghost use Rattle.fips.specs.Words.{word};
ghost use Rattle.fips.specs.Editions.{known};
ghost use Rattle.fips.specs.Sizes.{width_of};
ghost use Rattle.slices.specs.Tests.{all_below};
ghost use Rattle.halfread.specs.State.{sound};

use crate::HalfRead;
use crate::tail::tail_length;

// Each word is below 2^w: of 64 bits every word is.
pub fn below_width(words: [u64; 8], thin: bool) -> bool
    ensures { result ≡ all_below (2 ^ word (width_of thin)) words }
{
    !thin || words.iter().all(|word| *word < 0x1_0000_0000)
}

pub fn is_sound(half: HalfRead) -> bool
    ensures { result ≡ sound half }
{
    let HalfRead {
        edition,
        count,
        words,
        tail,
    } = half;
    if !fips::lookup::known(edition) {
        return false;
    }
    if dwsha2::limit::too_long(edition, count, 0) {
        return false;
    }
    if !below_width(words, fips::lookup::narrow(edition)) {
        return false;
    }
    let from = tail_length(edition, count);
    if !slices::zero::all_are(&tail[from..], 0) {
        return false;
    }
    let size = fips::lookup::block_bytes(edition) as u64;
    if size <= count {
        return true;
    }
    let start = dwsha2::starting::starting_words(edition);
    slices::same::same(&words, &start)
}
