// One line of a work sheet.
ghost use Rattle.std.specs.Prelude.{◌≡◌, ◌≤◌, is_none};
ghost use Rattle.calls.specs.Listing.{sheet_records};
ghost use Rattle.cutter.specs.Grammar.{sheet_blocks};
ghost use Rattle.sheet.specs.Sheet.{added, size_of, count_of, after_line, left_by};

use calls::answer::Refusal;
use cutter::line::SheetCall;
use formatting::format;
use running::call;
use sheet::run::Addition;
use sheet::state::Sheet;

// One line: the call that it asks for, or 15 with the line's number, after which the sheet ends.
pub fn run_line(
    sheet: &mut Sheet,
    number: u32,
    line: Option<SheetCall>,
) -> Result<Addition, Refusal>
    requires { size_of line ≤ sheet_blocks }
    ensures value { left_by result (is_none line) sheet.new ≡ after_line sheet.old number line }
    ensures upper_bound { count_of (added result) ≤ sheet_records }
{
    match line.ok_or(Refusal::BadLine(number))? {
        SheetCall::Ream {
            layout,
            blocks,
            volume,
            name,
        } => format::run_ream(sheet, layout, blocks, volume, name),
        SheetCall::Write(l, fill) => call::run_write(sheet, l, fill),
        SheetCall::Read(target, l) => call::run_read(sheet, target, l),
        SheetCall::Snap(name) => call::run_snap(sheet, name),
        SheetCall::Revert(name) => call::run_revert(sheet, name),
        SheetCall::List => call::run_list(sheet),
        SheetCall::Check => call::run_check(sheet),
    }
}
