// The call that writes a span of bytes. Its contract is one equation: answer and card at exit are those of the definition's `step`.
#![tactic(auto)]

mod piece; // the write of one block of a span
mod plan; // the blocks that a span takes
pub mod span; // a write of a span
