// The chain of descriptors: its definitions and laws, and the type that these name. It has no function of its own.
#![tactic(auto)]

pub mod chain; // what is wrong with a chain
