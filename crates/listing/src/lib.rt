// The call that lists the chain. Its contract is one equation: answer and lent records at exit are those of the definition's `step`.
#![tactic(auto)]

pub mod list; // a listing of the chain
