// Where the data and the tables of a write go: the code that sets entries, and writes a block through an entry that was found.
#![tactic(auto)]

mod set; // setting an entry
pub mod put; // a write through an entry
