// Block numbers. A logical and a physical number never stand in for one another.
ghost use Rattle.std.specs.Prelude.{◌≡◌, ◌*◌, eqb};
ghost use Rattle.blocks.specs.Bytes.{block_size};

use crate::sizes::BLOCK_SIZE;

// The number of a physical block of the card, the paper's p.
#[derive(Clone, Copy, Debug, PartialEq, Eq, PartialOrd, Ord)]
pub struct Physical(pub u32);

impl Physical {
    // The byte of the card at which the block starts.
    pub fn start(self) -> usize
        ensures { result ≡ block_size * self.0 }
    {
        BLOCK_SIZE * (self.0 as usize)
    }

    // Whether the number is 0, which in a table names no block.
    pub fn is_nil(self) -> bool
        ensures { result ≡ eqb self.0 0 }
    {
        self.0 == 0
    }
}

// The number of a logical block of the volume, the paper's l.
#[derive(Clone, Copy, Debug, PartialEq, Eq, PartialOrd, Ord)]
pub struct Logical(pub u32);
