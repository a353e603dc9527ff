// The target of a call that follows an entry: which names it takes, and which descriptor it goes through.
#![tactic(auto)]

pub mod target; // the index in the chain of what is asked for
