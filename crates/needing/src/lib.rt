// The code of what a write takes.
#![tactic(auto)]

pub mod blank; // whether a block is a blank page, which stores nothing (02, W4): no call asks it yet
pub mod need; // the blocks that a write takes through the entry that was found
