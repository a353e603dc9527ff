// The code that looks up in a chain what the walk along it found.
#![tactic(auto)]

pub mod index; // a name by its index, the next of a region
