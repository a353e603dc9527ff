// Block bytes and descriptors: the lowest layer of the card store.
#![tactic(auto)]

pub mod sizes; // the sizes that the papers give
pub mod numbers; // logical and physical block numbers
pub mod bytes; // bytes, 32-bit numbers and whole blocks of a lent area
pub mod descriptor; // a descriptor by value, read and stored
