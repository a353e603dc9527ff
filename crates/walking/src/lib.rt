// The walk along the chain: the code that judges its descriptors one after the other.
#![tactic(auto)]

pub mod chain; // the walk along the chain of descriptors
