// The work sheet: its definitions and laws, and the types that these name.
#![tactic(auto)]

pub mod state; // a sheet between two lines
pub mod start; // a sheet at its start, and its card
pub mod run; // what a line adds to its answer
