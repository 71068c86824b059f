// The saved record: SPEC, "The saved record". Written from a state and saved; its fields read back and loaded.
#![tactic(auto)]

ghost use Rattle.std.specs.Prelude.{◌≡◌, ◌≤◌, ℕ, List, length, take};
ghost use Rattle.answers.specs.Judged.{handed, Judged};
ghost use Rattle.answers.specs.Numbers.{number_of};
ghost use Rattle.slices.specs.AtFront.{at_front};
ghost use Rattle.slices.specs.Tests.{same};
ghost use Rattle.halfread.specs.State.{blank};
ghost use Rattle.records.specs.Record.{newest, tail_at, record_length, record_of, save_tests, loaded, load_tests};

use answers::{Answer, Refusal};
use bigendian::rows::{field, put_row};
use fips::lookup::block_bytes;
use halfread::HalfRead;
use halfread::sound::is_sound;
use halfread::tail::{padded, tail_length};
use slices::front::put_front;
use slices::places::part;
use slices::same::same;
use std::marker::Model;

// The newest form: the bytes of a number, where the count begins and the bytes that it takes, the zeros that close the header, and where
// the words begin, behind four numbers, the count, two numbers and the zeros.
const NUMBER: usize = 2;

const COUNT_AT: usize = 4 * NUMBER;

const COUNT_BYTES: usize = 8;

const ZERO_BYTES: usize = 4;

const WORDS_AT: usize = COUNT_AT + COUNT_BYTES + 2 * NUMBER + ZERO_BYTES;

// The longest record has eight words of 64 bits and a tail that wants one byte of a block.
const LONGEST: usize = WORDS_AT + 8 * 8 + halfread::TAIL - 1;

// Where the tail begins, behind eight words.
fn tail_at(edition: u64) -> usize
    ensures { result ≡ tail_at newest edition }
{
    WORDS_AT + block_bytes(edition) / 2
}

fn record_length(half: &HalfRead) -> usize
    ensures { result ≡ record_length half.now }
{
    tail_at(half.edition) + tail_length(half.edition, half.count)
}

// A whole record, at the front of a buffer that has room for the longest.
#[derive(Drop)]
struct Whole {
    buffer: [u8; LONGEST],
    len: usize,
}

impl Model for Whole {
    ghost Value = { List ℕ };

    ghost view = { λ r. take r.len r.buffer };

    ghost invariant = { λ r. r.len ≤ length r.buffer };
}

impl Whole {
    fn bytes(&self) -> &[u8]
        ensures { result.now ≡ self.now }
    {
        &self.buffer[..self.len]
    }
}

// The record of a message: the header field by field, the words, the tail.
fn record_of(half: &HalfRead) -> Whole
    ensures { result ≡ record_of half.now }
{
    let edition = half.edition;
    let end = tail_length(edition, half.count);
    let at = tail_at(edition);
    let len = record_length(half);
    let sizes = [
        NUMBER,
        NUMBER,
        NUMBER,
        NUMBER,
        COUNT_BYTES,
        NUMBER,
        NUMBER,
        ZERO_BYTES,
    ];
    let values = [
        edition,
        8,
        WORDS_AT as u64,
        at as u64,
        half.count,
        end as u64,
        len as u64,
        0,
    ];
    // written where it stays: a buffer that is put in at the end is copied
    let mut whole = Whole {
        buffer: [0u8; LONGEST],
        len,
    };
    let buffer = &mut whole.buffer;
    put_row(buffer, &sizes, &values);
    bigendian::put_words(
        &mut buffer[WORDS_AT..],
        &half.words,
        block_bytes(edition) / 16,
    );
    put_front(&mut buffer[at..], &half.tail[..end]);
    whole
}

pub fn save(half: HalfRead, out: &mut [u8]) -> Answer
    ensures { Judged (save_tests half out.old) out.old (at_front (record_of half) out.old) (number_of result)
        out.new }
{
    if !is_sound(half) {
        return Err(Refusal::NotSound);
    }
    if out.len() < record_length(&half) {
        return Err(Refusal::ShortOutput);
    }
    put_front(out, record_of(&half).bytes());
    Ok(())
}

// The state that the fields of any bytes give; whether they are a record is not asked here.
fn fields(bytes: &[u8]) -> HalfRead
    ensures { result ≡ loaded bytes.now }
{
    let edition = field(bytes, 0, NUMBER);
    let count = field(bytes, COUNT_AT, COUNT_BYTES);
    let mut words = [0u64; 8];
    bigendian::get_words(
        &mut words,
        part(bytes, WORDS_AT, bytes.len()),
        block_bytes(edition) / 16,
    );
    let tail = padded(part(bytes, tail_at(edition), bytes.len()));
    HalfRead {
        edition,
        count,
        words,
        tail,
    }
}

// Whether the bytes are the record of a message.
fn is_record_of(half: &HalfRead, bytes: &[u8]) -> bool
    ensures { result ≡ same (record_of half.now) bytes.now }
{
    same(record_of(half).bytes(), bytes)
}

// The fields make a state, whose record is compared with what was lent: that checks every count and offset, the zeros and the length.
pub fn load(lent: &[u8]) -> Result<HalfRead, Refusal>
    ensures { Judged (load_tests lent.now) blank (loaded lent.now) (number_of result) (handed blank result) }
{
    let half = fields(lent);
    if !is_sound(half) {
        return Err(Refusal::BadRecord);
    }
    if !is_record_of(&half, lent) {
        return Err(Refusal::BadRecord);
    }
    Ok(half)
}
