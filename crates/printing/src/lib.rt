// The bytes that a work sheet prints: definitions, and the code of what they are made of.
#![tactic(auto)]

pub mod text; // a text in lent memory, and numbers and names put at its end
