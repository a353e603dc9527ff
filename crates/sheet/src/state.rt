// A sheet between two lines.
use blocks::sizes::BLOCK_SIZE;
use calls::answer::Record;
use calls::list::SHEET_RECORDS;
use cutter::line::SHEET_BLOCKS;
use std::marker::Model;

// Bytes of the blocks that a sheet owns.
pub const AREA_SIZE: usize = BLOCK_SIZE * SHEET_BLOCKS as usize;

// A sheet: its blocks, how many of them are the card, and its records.
#[derive(Drop)]
pub struct Sheet {
    pub area: [u8; AREA_SIZE],
    pub blocks: u32,
    pub records: [Record; SHEET_RECORDS],
}

// A contract sees a sheet as its state. The card is never more than the sheet's blocks.
impl Model for Sheet {
    ghost use Rattle.std.specs.Prelude.{◌≤◌};
    ghost use Rattle.cutter.specs.Grammar.{sheet_blocks};
    ghost use Rattle.sheet.specs.State.{State};

    ghost Value = { State };

    ghost view = { λ s. record { area = s.area; blocks = s.blocks; records = s.records } };

    ghost invariant = { λ s. s.blocks ≤ sheet_blocks };
}
