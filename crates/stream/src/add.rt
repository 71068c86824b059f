// Adding a piece: SPEC, "Tree over a stream". The chunks of a piece are taken where they lie.
ghost use Rattle.std.specs.Prelude.{true, ◌≡◌, ◌++◌, ◌+◌, ◌*◌, ◌/◌, ◌≤◌, ltb, length};
ghost use Rattle.answers.specs.Judged.{handed, Judged};
ghost use Rattle.answers.specs.Numbers.{number_of};
ghost use Rattle.slices.specs.Blocks.{rest as rest_of};
ghost use Rattle.treerule.specs.Root.{chunk_bytes};
ghost use Rattle.streamrule.specs.Held.{grown};
ghost use Rattle.stream.specs.State.{most_chunks, state_of, sound, Shaped, roots_in};
ghost use Rattle.stream.specs.Steps.{finished, stream_limit, taken, add_tests, added};

use crate::roots::{grow, held};
use crate::state::{MOST, is_sound};
use crate::{CHUNK, NODE, ROOTS, Stream};
use answers::Refusal;
use slices::front::{padded, put_front};
use slices::places::rest_at;

// 2^42 bytes.
const LIMIT: u64 = MOST * 1024;

// Whether a piece of so many bytes would pass the limit.
fn too_long(stream: Stream, n: usize) -> bool
    requires { taken stream ≤ stream_limit }
    ensures { result ≡ ltb stream_limit (taken stream + n) }
{
    let room = LIMIT - (stream.chunks * 1024 + stream.further);
    room < n as u64
}

// The stream once two runs of bytes have followed the finished chunks. The first is whole chunks: `with_piece` lends the one that was
// begun, or nothing.
fn taken_up(chunks: u64, roots: [u8; ROOTS], front: &[u8], rest: &[u8]) -> Stream
    requires { (length front.now / chunk_bytes * chunk_bytes ≡ length front.now)
        × (chunks + length front.now / chunk_bytes + length rest.now / chunk_bytes ≤ most_chunks) }
    ensures { result ≡ state_of (chunks + length (front.now ++ rest.now) / chunk_bytes)
        (grown chunks (roots_in chunks roots) (finished (front.now ++ rest.now)))
        (rest_of chunk_bytes (front.now ++ rest.now)) }
{
    let mut roots = roots;
    grow(&mut roots, chunks, front);
    let filled = chunks + (front.len() / CHUNK) as u64;
    grow(&mut roots, filled, rest);
    let chunks = filled + (rest.len() / CHUNK) as u64;
    let end = held(chunks) * NODE;
    let whole = rest_at(rest.len(), CHUNK);
    Stream {
        chunks,
        further: (rest.len() - whole) as u64,
        roots: padded(&roots[..end]),
        bytes: padded(&rest[whole..]),
    }
}

// The begun chunk is filled from the front of the piece, and the rest of the piece is taken where it lies.
fn with_piece(stream: Stream, piece: &[u8]) -> Stream
    requires { (sound stream ≡ true) × (taken stream + length piece.now ≤ stream_limit) }
    ensures { result ≡ added stream piece.now }
{
    let chunks = stream.chunks;
    let roots = stream.roots;
    let mut bytes = stream.bytes;
    let from = stream.further as usize;
    // what the begun chunk lacks: nothing where none is begun
    let lead = (CHUNK - from) % CHUNK;
    put_front(&mut bytes[from..], piece);
    if piece.len() < lead {
        return Stream {
            chunks,
            further: (from + piece.len()) as u64,
            roots,
            bytes,
        };
    }
    let end = from + lead;
    taken_up(chunks, roots, &bytes[..end], &piece[lead..])
}

pub fn add(stream: Stream, piece: &[u8]) -> Result<Stream, Refusal>
    ensures judged { Judged (add_tests stream piece.now) stream (added stream piece.now) (number_of result) (handed stream result) }
    ensures shaped { Shaped stream }
{
    if !is_sound(stream) {
        return Err(Refusal::NotSound);
    }
    if too_long(stream, piece.len()) {
        return Err(Refusal::TooLong);
    }
    Ok(with_piece(stream, piece))
}
