// The call that formats a card. Its contract is one equation: answer and card at exit are those of the definition's `step`.
#![tactic(auto)]

pub mod ream; // the format
