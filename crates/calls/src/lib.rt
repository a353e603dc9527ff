// What the calls of the card store share: their definitions and laws, and what a call takes and answers.
#![tactic(auto)]

pub mod answer; // what a call takes and answers besides bytes
pub mod list; // how many records a sheet has
pub mod chain; // a card with a sound chain
