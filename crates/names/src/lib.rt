// The code of names: which sixteen bytes are one, and the name that a text makes.
#![tactic(auto)]

pub mod name; // names of sixteen bytes
