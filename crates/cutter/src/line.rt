// A line of the work sheet.
use blocks::numbers::Logical;
use blocks::sizes::NAME_SIZE;
use calls::answer::Target;

// The blocks that a sheet owns, and the most bytes of a line, its line feed not counted.
pub const SHEET_BLOCKS: u32 = 64;

pub const MOST_LINE: usize = 127;

// What a line asks for.
#[derive(Clone, Copy)]
pub enum SheetCall {
    Ream {
        layout: u32,
        blocks: u32,
        volume: u32,
        name: [u8; NAME_SIZE],
    },
    Write(Logical, u8), // the block, and the byte that fills it
    Read(Target, Logical),
    Snap([u8; NAME_SIZE]),
    Revert([u8; NAME_SIZE]),
    List,
    Check,
}

// What a line cut from the sheet asks for, none where it is not of the form, and where the next one starts.
#[derive(Clone, Copy)]
pub struct Cut {
    pub call: Option<SheetCall>,
    pub next: usize,
}
