// One turn of the sheet program: the next line, cut, run and printed.
ghost use Rattle.std.specs.Prelude.{◌≡◌, ◌≤◌, ◌<◌, length};
ghost use Rattle.blocks.specs.Bytes.{splice};
ghost use Rattle.printing.specs.Text.{line_room};
ghost use Rattle.sheet.specs.Sheet.{turn_of};

use answers::print;
use cutting::line;
use lines::run;
use printing::text::Text;
use sheet::state::Sheet;

// What a turn leaves besides the sheet and what it prints: where the next line starts, and whether the sheet ends.
#[derive(Clone, Copy)]
pub struct Turn {
    pub next: usize,
    pub ended: bool,
}

// Runs the line of the number that starts at byte `at` of the lines; what it prints stands at the start of the bytes that `out` lends.
pub fn run_next(lines: &[u8], at: usize, number: u32, sheet: &mut Sheet, out: &mut Text<'_>) -> Turn
    requires { (at < length lines.now) × (line_room ≤ length out.old.bytes.now) }
    ensures value { (record { next = result.next; length = out.new.length; blocks = sheet.new.blocks; records = sheet.new.records; ended = result.ended } ≡ (turn_of sheet.old number lines.now at).turn) × (sheet.new.area ≡ (turn_of sheet.old number lines.now at).area) × (out.new.bytes.now ≡ splice out.old.bytes.now 0 (turn_of sheet.old number lines.now at).text) }
    ensures at_lt_next { (at < result.next) × (result.next ≤ length lines.now) × (out.new.length ≤ line_room) }
    ensures lent { (out.new.bytes.ghost_name ≡ out.old.bytes.ghost_name) × (length out.new.bytes.now ≡ length out.old.bytes.now) }
{
    let cut = line::cut_next(lines, at);
    let outcome = run::run_line(sheet, number, cut.call);
    print::print_line(out, outcome, &sheet.records);
    Turn {
        next: cut.next,
        ended: cut.call.is_none(),
    }
}
