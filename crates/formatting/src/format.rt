// A line of a work sheet that formats the card.
ghost use Rattle.std.specs.Prelude.{◌≡◌, ◌≤◌, false};
ghost use Rattle.cutter.specs.Grammar.{sheet_blocks};
ghost use Rattle.sheet.specs.Sheet.{after_call, left_by};

use blocks::descriptor::Format;
use blocks::sizes::{BLOCK_SIZE, NAME_SIZE};
use calls::answer::Refusal;
use cutter::line::SheetCall;
use reams::ream;
use sheet::run::Addition;
use sheet::state::Sheet;

// A format, of the first `size` blocks: where it is accepted, these are the card.
pub fn run_ream(
    sheet: &mut Sheet,
    layout: u32,
    size: u32,
    volume: u32,
    name: [u8; NAME_SIZE],
) -> Result<Addition, Refusal>
    requires { size ≤ sheet_blocks }
    ensures { left_by result false sheet.new ≡ after_call sheet.old (SheetCall.Ream layout size volume name) }
{
    let end = BLOCK_SIZE * size as usize;
    let format = Format {
        layout,
        volume,
        revision: 0,
        name,
    };
    let outcome = ream::ream(&mut sheet.area[..end], format);
    // a refusal, whichever it is, leaves the card what it was
    if !matches!(outcome, Err(_)) {
        sheet.blocks = size;
    }
    outcome?;
    Ok(Addition::Nothing)
}
