// A stream in lent words: SPEC, "Tree over a stream". The words are unpacked to a stream by value, and packed again; those behind them are
// the caller's, and are neither read nor written.
#![tactic(auto)]

ghost use Rattle.std.specs.Prelude.{◌≡◌, ◌≤◌, ◌<◌, MatchResult, length};
ghost use Rattle.answers.specs.declared.Refusal.{Refusal};
ghost use Rattle.answers.specs.Numbers.{number_of};
ghost use Rattle.slices.specs.AtFront.{at_front};
ghost use Rattle.streamwords.specs.Words.{stream_words, stream_in, words_of};
ghost use Rattle.streamwords.specs.Calls.{Begins, LendsPiece, Adds, Roots};

use answers::{Answer, Refusal};
use stream::{CHUNK, ROOTS, Stream};

// Where they stand: the finished chunks, how many bytes follow them, the roots, and those bytes, eight to a word.
const CHUNKS: usize = 0;

const FURTHER: usize = 1;

const ROOTS_FROM: usize = 2;

const BYTES_FROM: usize = ROOTS_FROM + ROOTS / 8;

pub const WORDS: usize = BYTES_FROM + CHUNK / 8;

fn unpack(words: &[u64; WORDS]) -> Stream
    ensures { result ≡ stream_in words.now }
{
    let mut roots = [0u8; ROOTS];
    bigendian::put_words(&mut roots, &words[ROOTS_FROM..BYTES_FROM], 8);
    let mut bytes = [0u8; CHUNK];
    bigendian::put_words(&mut bytes, &words[BYTES_FROM..WORDS], 8);
    Stream {
        chunks: words[CHUNKS],
        further: words[FURTHER],
        roots,
        bytes,
    }
}

// The first of the words, which hold what all of them do. Fewer hold no stream, sound or not. They are lent, since a Stream beside a
// refusal is copied on the stack once more.
fn held(words: &[u64]) -> Result<&[u64; WORDS], Refusal>
    ensures { MatchResult result (λ first. (stream_words ≤ length words.now) × (stream_in first.now ≡ stream_in words.now))
        (λ e. (length words.now < stream_words) × (e ≡ Refusal.NotSound)) }
{
    match words.first_chunk() {
        Some(first) => Ok(first),
        None => Err(Refusal::NotSound),
    }
}

// The words of the stream at the front.
fn pack(words: &mut [u64], stream: Stream)
    requires { stream_words ≤ length words.old }
    ensures { words.new ≡ at_front (words_of stream) words.old }
{
    let roots = stream.roots;
    let bytes = stream.bytes;
    words[CHUNKS] = stream.chunks;
    words[FURTHER] = stream.further;
    bigendian::get_words(&mut words[ROOTS_FROM..BYTES_FROM], &roots, 8);
    bigendian::get_words(&mut words[BYTES_FROM..WORDS], &bytes, 8);
}

// A stream of which nothing is taken, over words that held anything.
pub fn begin(words: &mut [u64]) -> Answer
    ensures { Begins words.old (number_of result) words.new }
{
    if words.len() < WORDS {
        return Err(Refusal::ShortOutput);
    }
    pack(words, stream::state::begin());
    Ok(())
}

pub fn add(words: &mut [u64], piece: &[u8]) -> Answer
    ensures adds { Adds words.old piece.now (number_of result) words.new }
    ensures lends_piece { LendsPiece words.old piece.now }
{
    let stream = stream::add::add(unpack(held(words)?), piece)?;
    pack(words, stream);
    Ok(())
}

pub fn root(words: &[u64], out: &mut [u8]) -> Answer
    ensures { Roots words.now out.old (number_of result) out.new }
{
    stream::root::root(unpack(held(words)?), out)
}
