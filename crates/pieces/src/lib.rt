// A span of bytes over blocks: which it touches, and its piece in each.
#![tactic(auto)]

pub mod piece; // the blocks that a span touches, and its pieces
