// The call that goes back to a snapshot. Its contract is one equation: answer and card at exit are those of the definition's `step`.
#![tactic(auto)]

pub mod revert; // back to a snapshot
