// The sizes that the papers give: of a block, of a table and of what stands in a descriptor; and the places that a walk along the chain is lent.

// Bytes in a block.
pub const BLOCK_SIZE: usize = 512;

// The fewest and the most blocks of a card.
pub const FEWEST_BLOCKS: usize = 2;

pub const MOST_BLOCKS: usize = 65536;

// Entries in a table block.
pub const TABLE_SIZE: u32 = 128;

// The most logical blocks of a volume.
pub const MOST_VOLUME: u32 = 14336;

// Bytes in a name.
pub const NAME_SIZE: usize = 16;

// Bytes of the record at the start of a descriptor block, the first byte of the name in it, that of the revision after it, and the first byte of Phi.
pub const HEAD_SIZE: usize = 40;

pub const NAME_START: usize = 24;

pub const REVISION_START: usize = 40;

pub const PHI_START: usize = 64;

// The most snapshots of a chain, and the places for the starts of the regions of the longest: one for each descriptor, and one for the end of the last.
pub const MOST_SNAPSHOTS: usize = 255;

pub const STARTS_SIZE: usize = 257;

// The most descriptors of a chain that is walked with few places, and those places.
pub const FEW_DESCRIPTORS: usize = 8;

pub const FEW_STARTS: usize = 9;
