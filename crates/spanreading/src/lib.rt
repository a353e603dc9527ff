// The call that gives back a span of bytes. Its contract is one equation: answer and lent memory at exit are those of the definition's `step`.
#![tactic(auto)]

mod fetch; // the bytes of a span through a descriptor
mod groups; // the entries of a span, group by group
pub mod span; // a read of a span
