// Finishing a message: its tail, the closing byte, zero bytes and the length, in one last block or two.
ghost use Rattle.std.specs.Prelude.{◌≡◌, ◌∷◌, ◌++◌, ◌-◌, ◌%◌, ◌<◌, length, take, replicate};
ghost use Rattle.fips.specs.Words.{block_bytes};
ghost use Rattle.fips.specs.Code.ByteForm.{closing_byte};
ghost use Rattle.fips.specs.Sizes.{width_of};
ghost use Rattle.dwsha2.specs.Code.Hashing.{last_length, last_bytes, finished};

use crate::closing::{closing_byte, length_field};
use crate::hashing::absorb;
use fips::lookup::{block_size, narrow};
use slices::front::put_front;

// Where the last bytes end: n bytes, the closing byte, zero bytes and the length fill one block or two.
fn last_end(thin: bool, n: usize) -> usize
    requires { n < block_bytes (width_of thin) }
    ensures { result ≡ last_length (width_of thin) n }
{
    let size = block_size(thin);
    if n + 1 + size / 8 <= size {
        return size;
    }
    2 * size
}

// The tail and the closing byte, in a buffer of two blocks.
fn with_closing(tail: &[u8], closing: u8, bits: u64) -> [u8; 256]
    requires { length tail.now < 128 }
    ensures { result ≡ tail.now ++ (closing_byte closing (bits % 8) ∷ replicate (255 - length tail.now) 0) }
{
    let mut buffer = [0u8; 256];
    put_front(&mut buffer, tail);
    buffer[tail.len()] = closing_byte(closing, bits);
    buffer
}

// The same with the length at the end, of which 32-bit editions take the lower word.
fn last_bytes(thin: bool, count: u64, tail: &[u8], closing: u8, bits: u64) -> [u8; 256]
    requires { length tail.now < block_bytes (width_of thin) }
    ensures { take (last_length (width_of thin) (length tail.now)) result
        ≡ last_bytes (width_of thin) count tail.now closing (bits % 8) }
{
    let end = last_end(thin, tail.len());
    let size = block_size(thin) / 8;
    let start = end - size;
    let skip = 16 - size;
    let mut buffer = with_closing(tail, closing, bits);
    let field = length_field(count, bits);
    put_front(&mut buffer[start..end], &field[skip..]);
    buffer
}

// The last words of a message of which `count` bytes came in all, the tail is left and a closing byte follows.
pub fn finish(
    edition: u64,
    words: [u64; 8],
    count: u64,
    tail: &[u8],
    closing: u8,
    bits: u64,
) -> [u64; 8]
    ensures { result ≡ finished edition words count tail.now closing bits }
{
    let thin = narrow(edition);
    let rest = tail.len() % block_size(thin);
    let whole = tail.len() - rest;
    let last = last_bytes(thin, count, &tail[whole..], closing, bits);
    let h = absorb(edition, words, tail);
    let end = last_end(thin, rest);
    absorb(edition, h, &last[..end])
}
