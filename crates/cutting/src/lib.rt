// The desk's work sheet, cut into lines and each line into its pairs, for any bytes whatever.
#![tactic(auto)]

pub mod line; // a line, and the next line of a sheet
