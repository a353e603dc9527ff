// The call that names the visit a block dates from. Its contract is one equation: number, place and name are those of the definition's `step`.
#![tactic(auto)]

pub mod visit; // the region of one block
