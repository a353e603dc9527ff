// What the library's functions take and give besides what the calls do.
#![tactic(auto)]

pub mod argument; // names and targets as a caller gives them
pub mod record; // records as bytes, and the chain listed into them
