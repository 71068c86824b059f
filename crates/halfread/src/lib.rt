// A half-read message by value: opened, with a piece added, closed, and whether it is sound. SPEC, "The table of bays".
#![tactic(auto)]

pub mod tail; // tail.rt: how long a tail is, and zeros behind it
pub mod state; // state.rt: a message of which nothing is taken, and an empty bay's state
pub mod sound; // sound.rt: the rules of a sound bay
pub mod add; // add.rt: a piece more
pub mod close; // close.rt: the digest

// How many bytes a tail has room for: those of the longest block.
pub const TAIL: usize = 128;

// The edition, the bytes taken, the chaining words, and the bytes after the last whole block with zeros behind them.
#[derive(Clone, Copy)]
pub struct HalfRead {
    pub edition: u64,
    pub count: u64,
    pub words: [u64; 8],
    pub tail: [u8; TAIL],
}
