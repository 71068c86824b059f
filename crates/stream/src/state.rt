// The beginning of a stream, and whether a stream is sound: SPEC, "Tree over a stream".
ghost use Rattle.std.specs.Prelude.{◌≡◌};
ghost use Rattle.slices.specs.Tests.{holds};
ghost use Rattle.stream.specs.State.{begun, count_rules, sound};

use crate::roots::held;
use crate::{CHUNK, NODE, ROOTS, Stream};
use slices::zero::all_are;

// House: at most 2^32 chunks.
pub(crate) const MOST: u64 = 4_294_967_296;

// Nothing is taken.
pub fn begin() -> Stream
    ensures { result ≡ begun }
{
    Stream {
        chunks: 0,
        further: 0,
        roots: [0; ROOTS],
        bytes: [0; CHUNK],
    }
}

// The two counts: at most 2^32 chunks, fewer bytes than a chunk has, and none behind 2^32 chunks.
fn counts(chunks: u64, further: u64) -> bool
    ensures { result ≡ holds (count_rules chunks further) }
{
    if MOST < chunks {
        return false;
    }
    if CHUNK as u64 <= further {
        return false;
    }
    if chunks < MOST {
        return true;
    }
    further == 0
}

// The counts, and zeros behind the roots and behind the bytes.
pub fn is_sound(stream: Stream) -> bool
    ensures { result ≡ sound stream }
{
    let chunks = stream.chunks;
    let further = stream.further;
    if !counts(chunks, further) {
        return false;
    }
    let roots = stream.roots;
    let end = held(chunks) * NODE;
    if !all_are(&roots[end..], 0) {
        return false;
    }
    let bytes = stream.bytes;
    let end = further as usize;
    all_are(&bytes[end..], 0)
}
