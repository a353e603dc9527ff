// Blocks of the card as a change leaves them, made beside the card.
#![tactic(auto)]

pub mod block; // whole blocks as a change leaves them
