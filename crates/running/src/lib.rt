// The lines of a work sheet that ask for a call on the card, each with its call.
#![tactic(auto)]

pub mod call; // what such a line does
