// Entry finding: the code that knows where table entries stand.
#![tactic(auto)]

pub mod find; // the entry of a logical block
