// The write of one block. Its contract is one equation: answer and card at exit are those of the definition's `step`.
#![tactic(auto)]

pub mod write; // a write of one block
