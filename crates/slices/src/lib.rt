// Lists and lent slices: whether they are equal or all zero, writing at the front of an output, and where a rest begins.
// What both bytes and words need is there once, over any type of elements.
#![tactic(auto)]

pub mod same; // same.rt: two slices compared
pub mod zero; // zero.rt: slices whose elements are all the same one, as zero
pub mod front; // front.rt: writing at the front of an output
pub mod places; // places.rt: the smaller of two places, a part, and where a rest after whole blocks begins
