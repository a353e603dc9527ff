// The sheet program: it reads a work sheet on standard input and prints what each line answers.
#![tactic(auto)]

ghost use Rattle.std.specs.Prelude.{◌≤◌, length};

use answers::print;
use printing::text::{LINE_ROOM, Text};
use sheet::state::Sheet;
use std::io::{Read, Write};
use turns::next;

// The most bytes of a sheet; one more is read, which tells a longer one.
const MOST_SHEET: usize = 16384;

const INPUT_SIZE: usize = MOST_SHEET + 1;

// Reads until `buf` is full, the input ends or a read fails, and returns how many bytes it put at the start of `buf`.
fn read_full<R: Read>(from: &mut R, buf: &mut [u8]) -> usize
    ensures { result ≤ length buf.new }
{
    let mut done = 0;
    // no `for`: how many bytes a read brings is known after it
    while done < buf.len() {
        match from.read(&mut buf[done..]) {
            Ok(0) | Err(_) => break,
            Ok(n) => done += n,
        }
    }
    done
}

fn main(rt: HostRuntime) {
    let mut stdout = rt.stdout();
    let mut room = [0; LINE_ROOM];
    let mut out = Text::new(&mut room);
    let mut input = [0; INPUT_SIZE];
    let got = read_full(&mut rt.stdin(), &mut input);
    if MOST_SHEET < got {
        print::print_too_long(&mut out);
        let _ = stdout.write_all(out.bytes_within());
        return;
    }
    let lines = &input[..got];
    let mut sheet = Sheet::new();
    let mut at = 0;
    let mut number: u32 = 1;
    // no `for`: that each turn starts further on is why the sheet ends
    while at < lines.len() {
        let turn = next::run_next(lines, at, number, &mut sheet, &mut out);
        // nothing is kept back: what a line prints is written before the next line runs
        if stdout.write_all(out.bytes_within()).is_err() || turn.ended {
            return;
        }
        at = turn.next;
        number += 1;
    }
}
