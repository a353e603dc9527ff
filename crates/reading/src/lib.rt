// The call that gives back a block. Its contract is one equation: answer and lent memory at exit are those of the definition's `step`.
#![tactic(auto)]

pub mod read; // a read of one block
