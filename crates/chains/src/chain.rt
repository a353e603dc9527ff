// What is wrong with a chain.
use blocks::numbers::Physical;

// The chain is unsound: the block of its first unsound descriptor.
#[derive(Clone, Copy)]
pub struct UnsoundChain(pub Physical);
