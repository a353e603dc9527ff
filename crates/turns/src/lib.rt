// The turns of the sheet program: one line after the other, cut, run and printed.
#![tactic(auto)]

pub mod next; // a turn of the program
