// The code that names the region of a block.
#![tactic(auto)]

pub mod date; // the name of the region that contains what an entry names
