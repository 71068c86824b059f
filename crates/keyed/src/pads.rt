// The key as a block, and the chaining words after it: FIPS 198-1 §4, steps 1 to 4 and 7.
ghost use Rattle.std.specs.Prelude.{◌≡◌, take};
ghost use Rattle.fips.specs.Editions.{start};
ghost use Rattle.halfread.specs.State.{padded};
ghost use Rattle.hmac.specs.Hmac.{xored, B, block_key};
ghost use Rattle.dwsha2.specs.Code.Hashing.{absorbed};

use dwsha2::finish::finish;
use dwsha2::hashing::{absorb, write_digest};
use dwsha2::starting::starting_words;
use fips::lookup::block_bytes;
use halfread::TAIL;
use slices::front::put_front;

// The bytes that the key is xored with.
pub(crate) const INNER: u8 = 0x36;

pub(crate) const OUTER: u8 = 0x5c;

// K0 with zeros behind it, where a block is shorter than the longest. A key longer than a block is hashed first.
pub(crate) fn block_key(edition: u64, key: &[u8]) -> [u8; TAIL]
    ensures { result ≡ padded (block_key edition key.now) }
{
    let mut block = [0u8; TAIL];
    if block_bytes(edition) < key.len() {
        let start = starting_words(edition);
        let words = finish(edition, start, key.len() as u64, key, 0, 0);
        write_digest(edition, words, &mut block);
        return block;
    }
    put_front(&mut block, key);
    block
}

// Every byte xored with one.
fn xor(mut block: [u8; TAIL], pad: u8) -> [u8; TAIL]
    ensures { result ≡ xored pad block }
{
    for byte in &mut block {
        *byte ^= pad;
    }
    block
}

// The chaining words after one block, whose bytes are xored.
pub(crate) fn words_after(edition: u64, block: [u8; TAIL], pad: u8) -> [u64; 8]
    ensures { result ≡ absorbed edition (start edition) (xored pad (take (B edition) block)) }
{
    let start = starting_words(edition);
    let bytes = xor(block, pad);
    let end = block_bytes(edition);
    absorb(edition, start, &bytes[..end])
}
