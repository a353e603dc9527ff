// Copies within a card: parts of blocks, blocks, runs of blocks, and the block of a new descriptor, made in one pass.
#![tactic(auto)]

pub mod copy; // the copies, each byte stored once
