// The code that finds the region that contains a block.
#![tactic(auto)]

pub mod place; // which blocks an entry may name, and the region of one
