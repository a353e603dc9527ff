// The bytes that a work sheet prints of an answer.
#![tactic(auto)]

pub mod report; // answers, bytes and records as text
