// The forms of a line of the work sheet, by how many words it has.
#![tactic(auto)]

pub mod form; // what the words of a line ask for
