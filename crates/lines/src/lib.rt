// The lines of a work sheet, each with its call.
#![tactic(auto)]

pub mod run; // what a line does
