// A keyed hash in lent words: SPEC, "Keyed digests". The words are unpacked to a keyed hash by value, and packed again; those behind them
// are the caller's, and are neither read nor written.
#![tactic(auto)]

ghost use Rattle.std.specs.Prelude.{◌≡◌, ◌≤◌, ◌<◌, MatchResult, length};
ghost use Rattle.answers.specs.declared.Refusal.{Refusal};
ghost use Rattle.answers.specs.Judged.{first};
ghost use Rattle.answers.specs.Numbers.{number_of};
ghost use Rattle.slices.specs.AtFront.{at_front};
ghost use Rattle.keyedwords.specs.Words.{keyed_words, keyed_in, words_of};
ghost use Rattle.keyedwords.specs.Calls.{Starts, LendsKey, Adds, LendsPiece, Ends, check_tests};

use answers::{Answer, Refusal};
use bays::lent::{half_in, words_of};
use keyed::Keyed;
use slices::front::put_front;

// Where they stand: the words of a bay, and then the outer ones.
const OUTER_FROM: usize = bays::lent::WORDS;

pub const WORDS: usize = OUTER_FROM + 8;

fn unpack(words: &[u64; WORDS]) -> Keyed
    ensures { result ≡ keyed_in words.now }
{
    let mut outer = [0u64; 8];
    put_front(&mut outer, &words[OUTER_FROM..WORDS]);
    Keyed {
        inner: half_in(words),
        outer,
    }
}

// The first of the words, which hold what all of them do. Fewer hold no keyed hash, sound or not. They are lent, since a Keyed beside a
// refusal is copied on the stack once more.
fn held(words: &[u64]) -> Result<&[u64; WORDS], Refusal>
    ensures { MatchResult result (λ first. (keyed_words ≤ length words.now) × (keyed_in first.now ≡ keyed_in words.now))
        (λ e. (length words.now < keyed_words) × (e ≡ Refusal.NotSound)) }
{
    match words.first_chunk() {
        Some(first) => Ok(first),
        None => Err(Refusal::NotSound),
    }
}

// The words of the keyed hash at the front.
fn pack(words: &mut [u64], keyed: Keyed)
    requires { keyed_words ≤ length words.old }
    ensures { words.new ≡ at_front (words_of keyed) words.old }
{
    let inner = words_of(keyed.inner);
    let outer = keyed.outer;
    put_front(words, &inner);
    put_front(&mut words[OUTER_FROM..], &outer);
}

// Over words that held anything.
pub fn start(words: &mut [u64], edition: u64, key: &[u8]) -> Answer
    ensures starts { Starts words.old edition key.now (number_of result) words.new }
    ensures lends_key { LendsKey words.old key.now }
{
    let keyed = keyed::state::start(edition, key)?;
    if words.len() < WORDS {
        return Err(Refusal::ShortOutput);
    }
    pack(words, keyed);
    Ok(())
}

pub fn add(words: &mut [u64], piece: &[u8]) -> Answer
    ensures adds { Adds words.old piece.now (number_of result) words.new }
    ensures lends_piece { LendsPiece words.old piece.now }
{
    let keyed = keyed::add::add(unpack(held(words)?), piece)?;
    pack(words, keyed);
    Ok(())
}

pub fn tag(words: &[u64], out: &mut [u8]) -> Answer
    ensures { Ends words.now out.old (number_of result) out.new }
{
    keyed::end::tag(unpack(held(words)?), out)
}

pub fn check(words: &[u64], tag: &[u8]) -> Answer
    ensures { number_of result ≡ first (check_tests words.now tag.now) }
{
    keyed::end::check(unpack(held(words)?), tag)
}
