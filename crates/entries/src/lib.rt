// The entry layer, the only one that knows where table entries stand: its definitions and laws, and the types that these name. It has no function of its own.
#![tactic(auto)]

pub mod find; // what finding an entry gives
