// The check of one descriptor, by its entries.
#![tactic(auto)]

pub mod check; // the check of one descriptor
