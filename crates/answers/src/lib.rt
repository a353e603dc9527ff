// What the lines of a work sheet print: the answer, what a read or a list adds, and the line feed.
#![tactic(auto)]

pub mod print; // what a line prints
