// The chunk tree over a stream, by value: SPEC, "Tree over a stream". A stream is begun, takes pieces, and tells its root at any moment.
#![tactic(auto)]

pub mod state; // state.rt: a stream of which nothing is taken, and whether one is sound
mod roots; // roots.rt: the roots held, and what chunks more make of them
pub mod add; // add.rt: a piece more
pub mod root; // root.rt: the root of all that was taken

// The bytes of a node and of a chunk, and of all roots: of 2^32 chunks or fewer there are at most 32.
pub const NODE: usize = tree::node::NODE;

pub const CHUNK: usize = tree::node::CHUNK;

pub const ROOTS: usize = 32 * NODE;

// The finished chunks and how many bytes follow them; the roots of their full subtrees, largest first, and those bytes, with zeros behind
// both.
#[derive(Clone, Copy)]
pub struct Stream {
    pub chunks: u64,
    pub further: u64,
    pub roots: [u8; ROOTS],
    pub bytes: [u8; CHUNK],
}
