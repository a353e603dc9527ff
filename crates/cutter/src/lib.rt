// The desk's work sheet: what its lines ask for, and the numbers in them, for any bytes whatever.
#![tactic(auto)]

pub mod number; // decimal numbers
pub mod line; // what a line asks for
