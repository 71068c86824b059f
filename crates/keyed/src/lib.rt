// HMAC over every edition: SPEC, "Keyed digests". A tag is made or compared at once, or of a message that comes in pieces.
#![tactic(auto)]

mod pads; // pads.rt: the key as a block, and the chaining words after it
pub mod state; // state.rt: a keyed hash that a key begins, and whether one is sound
pub mod add; // add.rt: a piece more
mod outer; // outer.rt: the outer hash
pub mod end; // end.rt: the tag of all that was taken, written or compared
pub mod at_once; // at_once.rt: the tag of a whole message, made or compared

use halfread::HalfRead;

// The inner half-read message, which begins with the key's inner block, and the chaining words after the key's outer block.
#[derive(Clone, Copy)]
pub struct Keyed {
    pub inner: HalfRead,
    pub outer: [u64; 8],
}
