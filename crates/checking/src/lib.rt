// The check of a card. Its contract is one equation: the answer is that of the definition's `step`.
#![tactic(auto)]

pub mod check; // the check of a card
