// The code that tests one descriptor of a chain.
#![tactic(auto)]

pub mod sound; // whether it is sound, but for its name among those before it
