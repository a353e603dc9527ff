// A line of a work sheet that asks for a call on the card.
ghost use Rattle.std.specs.Prelude.{◌≡◌, ◌≤◌, false};
ghost use Rattle.calls.specs.Listing.{sheet_records};
ghost use Rattle.cutter.specs.declared.line.SheetCall.{SheetCall};
ghost use Rattle.sheet.specs.Sheet.{added, count_of, after_call, left_by};

use blocks::numbers::Logical;
use blocks::sizes::{BLOCK_SIZE, NAME_SIZE};
use calls::answer::{Refusal, Target};
use checking::check;
use listing::list;
use reading::read;
use reverts::revert;
use sheet::run::Addition;
use sheet::state::Sheet;
use snaps::snap;
use writes::write;

// A write of a block full of one byte.
pub fn run_write(sheet: &mut Sheet, l: Logical, fill: u8) -> Result<Addition, Refusal>
    ensures { left_by result false sheet.new ≡ after_call sheet.old (SheetCall.Write l fill) }
{
    let end = sheet.card_size();
    write::write(&mut sheet.area[..end], l, &[fill; BLOCK_SIZE])?;
    Ok(Addition::Nothing)
}

// A read, which adds the first byte.
pub fn run_read(sheet: &Sheet, target: Target, l: Logical) -> Result<Addition, Refusal>
    ensures { left_by result false sheet.now ≡ after_call sheet.now (SheetCall.Read target l) }
{
    let mut block = [0; BLOCK_SIZE];
    read::read(sheet.card(), target, l, &mut block)?;
    Ok(Addition::Byte(block[0]))
}

// A snapshot under the name.
pub fn run_snap(sheet: &mut Sheet, name: [u8; NAME_SIZE]) -> Result<Addition, Refusal>
    ensures { left_by result false sheet.new ≡ after_call sheet.old (SheetCall.Snap name) }
{
    let end = sheet.card_size();
    snap::snap(&mut sheet.area[..end], name)?;
    Ok(Addition::Nothing)
}

// A rollback to the snapshot of the name.
pub fn run_revert(sheet: &mut Sheet, name: [u8; NAME_SIZE]) -> Result<Addition, Refusal>
    ensures { left_by result false sheet.new ≡ after_call sheet.old (SheetCall.Revert name) }
{
    let end = sheet.card_size();
    revert::revert(&mut sheet.area[..end], name)?;
    Ok(Addition::Nothing)
}

// A listing, which adds a record for each descriptor.
pub fn run_list(sheet: &mut Sheet) -> Result<Addition, Refusal>
    ensures value { left_by result false sheet.new ≡ after_call sheet.old (SheetCall.List) }
    ensures upper_bound { count_of (added result) ≤ sheet_records }
{
    let end = sheet.card_size();
    list::list(&sheet.area[..end], &mut sheet.records)?;
    Ok(Addition::FirstRecords(list::count_records(&sheet.records)))
}

// A check.
pub fn run_check(sheet: &Sheet) -> Result<Addition, Refusal>
    ensures { left_by result false sheet.now ≡ after_call sheet.now (SheetCall.Check) }
{
    check::check(sheet.card())?;
    Ok(Addition::Nothing)
}
