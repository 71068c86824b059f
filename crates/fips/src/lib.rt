// The standard's constants, and the sizes of its editions.
#![tactic(auto)]

pub mod tables; // tables.rt: round constants and starting words
pub mod lookup; // lookup.rt: what an edition's number names
