// The flags that a check keeps: one for each block that may not be named any more.
#![tactic(auto)]

pub mod flags; // the flags, and an entry taken by them
