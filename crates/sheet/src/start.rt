// A sheet at its start, and its card.
ghost use Rattle.std.specs.Prelude.{◌≡◌, ◌*◌, ◌≤◌, length, take};
ghost use Rattle.blocks.specs.Bytes.{block_size};
ghost use Rattle.sheet.specs.Sheet.{start, card_of};

use crate::state::{AREA_SIZE, Sheet};
use blocks::numbers::Physical;
use blocks::sizes::{BLOCK_SIZE, NAME_SIZE};
use calls::answer::Record;
use calls::list::SHEET_RECORDS;
use cutter::line::SHEET_BLOCKS;

impl Sheet {
    // A sheet at its start: its blocks are zero, and all are the card.
    pub fn new() -> Sheet
        ensures { result ≡ start }
    {
        let none = Record {
            name: [0; NAME_SIZE],
            alpha: Physical(0),
            beta: Physical(0),
            next: Physical(0),
        };
        Sheet {
            area: [0; AREA_SIZE],
            blocks: SHEET_BLOCKS,
            records: [none; SHEET_RECORDS],
        }
    }

    // The bytes of the card.
    pub fn card_size(&self) -> usize
        ensures value { result ≡ block_size * self.now.blocks }
        ensures upper_bound { result ≤ length self.now.area }
    {
        BLOCK_SIZE * self.blocks as usize
    }

    // The card.
    pub fn card(&self) -> &[u8]
        ensures { result.now ≡ card_of self.now.area self.now.blocks }
    {
        &self.area[..self.card_size()]
    }
}
