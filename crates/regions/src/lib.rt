// A region opened at a descriptor's beta: its tables copied, then its descriptor, made in one pass.
#![tactic(auto)]

pub mod region; // the opening of a region
