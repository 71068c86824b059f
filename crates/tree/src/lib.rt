// Layer 3, chunk trees: SPEC, "Chunk tree".
#![tactic(auto)]

pub mod node; // node.rt: leaves and parents
pub mod whole; // whole.rt: the tree of a whole map
