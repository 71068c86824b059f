// A tag, and the outer hash that makes it: FIPS 198-1 §4, steps 8 and 9.
ghost use Rattle.std.specs.Prelude.{List, ℕ, ◌≡◌, ◌≤◌, take};
ghost use Rattle.keyed.specs.State.{tag_room};
ghost use Rattle.keyed.specs.Steps.{outer_digest};
ghost use Rattle.dwsha2.specs.Code.Hashing.{digest_from};

use dwsha2::finish::finish;
use dwsha2::hashing::write_digest;
use fips::lookup::{block_bytes, digest_bytes};
use std::marker::Model;

// The bytes of the longest tag.
const TAG: usize = 64;

// A digest, as a tag is one: the front of a buffer that has room for the longest. A contract sees the digest alone.
#[derive(Drop)]
pub(crate) struct Tag {
    buffer: [u8; TAG],
    len: usize,
}

impl Model for Tag {
    ghost Value = { List ℕ };

    ghost view = { λ t. take t.len t.buffer };

    ghost invariant = { λ t. t.len ≤ tag_room };
}

impl Tag {
    // The digest that words make.
    fn of_words(edition: u64, words: [u64; 8]) -> Tag
        ensures { result ≡ digest_from edition words }
    {
        let mut buffer = [0u8; TAG];
        write_digest(edition, words, &mut buffer);
        Tag {
            buffer,
            len: digest_bytes(edition),
        }
    }

    pub(crate) fn bytes(&self) -> &[u8]
        ensures { result.now ≡ self.now }
    {
        &self.buffer[..self.len]
    }
}

// The tag: from the words after the outer block on, the inner hash's digest, which its last words make.
pub(crate) fn tag_of(edition: u64, outer: [u64; 8], last: [u64; 8]) -> Tag
    ensures { result ≡ outer_digest edition outer (digest_from edition last) }
{
    let inner = Tag::of_words(edition, last);
    let count = (block_bytes(edition) + digest_bytes(edition)) as u64;
    let words = finish(edition, outer, count, inner.bytes(), 0, 0);
    Tag::of_words(edition, words)
}
