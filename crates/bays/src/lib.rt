// The table of bays in a lent run of words: SPEC, "The table of bays". What the calls ask of it, and a bay read and written in place.
#![tactic(auto)]

pub mod table; // table.rt: the header, the gate that every call passes, and laying out
mod bay; // bay.rt: the words of a bay, unpacked and packed
pub mod in_place; // in_place.rt: a bay where it lies, asked for, read, written and emptied
pub mod lent; // lent.rt: the words of a bay outside a table
