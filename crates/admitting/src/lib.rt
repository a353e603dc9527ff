// The code of what is asked before the tests of any call.
#![tactic(auto)]

pub mod area; // that the area is a card
