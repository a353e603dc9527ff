// A line of the work sheet, and where the next one starts.
ghost use Rattle.std.specs.Prelude.{◌≡◌, ◌≤◌, ◌<◌, length};
ghost use Rattle.cutter.specs.Grammar.{line_of, cut_at};

use cutter::line::{Cut, MOST_LINE, SheetCall};
use forms::form;

// Cuts one line: its bytes without the line feed.
fn cut_line(line: &[u8]) -> Option<SheetCall>
    ensures { result ≡ line_of line.now }
{
    if MOST_LINE < line.len() {
        return None;
    }
    let mut words = line.split(|b| *b == b' ');
    let op = words.next()?;
    let Some(a) = words.next() else {
        return form::cut_one(op);
    };
    let Some(b) = words.next() else {
        return form::cut_two(op, a);
    };
    let Some(c) = words.next() else {
        return form::cut_three(op, a, b);
    };
    let d = words.next()?;
    match words.next() {
        None => form::cut_five(op, a, b, c, d),
        Some(_) => None,
    }
}

// The line of the sheet that starts at `at`, and where the next one starts.
pub fn cut_next(sheet: &[u8], at: usize) -> Cut
    requires { at < length sheet.now }
    ensures value { result ≡ cut_at sheet.now at }
    ensures at_lt_next { (at < result.next) × (result.next ≤ length sheet.now) }
{
    match sheet[at..].iter().position(|b| *b == b'\n') {
        Some(n) => Cut {
            call: cut_line(&sheet[at..at + n]),
            next: at + n + 1,
        },
        None => Cut {
            call: None,
            next: sheet.len(),
        },
    }
}
