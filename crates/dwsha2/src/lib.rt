// Layer 1, hashing: what the layers above build on for every edition, and hash at once. The block rule stands below, in a crate of its own.
#![tactic(auto)]

pub mod limit; // limit.rt: the length limit
pub mod closing; // closing.rt: the closing byte, its bits, the length
pub mod starting; // starting.rt: the starting words
pub mod hashing; // hashing.rt: absorbing blocks and the digest of any edition
pub mod finish; // finish.rt: the last blocks of a message
pub mod hash; // hash.rt: hash at once
