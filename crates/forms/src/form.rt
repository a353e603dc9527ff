// The forms of a line of the work sheet: what its words ask for.
ghost use Rattle.std.specs.Prelude.{◌≡◌};
ghost use Rattle.cutter.specs.Grammar.{line_of_one, line_of_two, line_of_write, line_of_read, line_of_three, line_of_five, read_from};

use blocks::numbers::Logical;
use calls::answer::Target;
use cutter::line::{SHEET_BLOCKS, SheetCall};
use cutter::number;
use names::name;

// `op=list`, `op=check`
pub fn cut_one(op: &[u8]) -> Option<SheetCall>
    ensures { result ≡ line_of_one op.now }
{
    if op == b"op=list".as_slice() {
        return Some(SheetCall::List);
    }
    if op == b"op=check".as_slice() {
        return Some(SheetCall::Check);
    }
    None
}

// `op=snap name=`, `op=revert name=`
pub fn cut_two(op: &[u8], a: &[u8]) -> Option<SheetCall>
    ensures { result ≡ line_of_two op.now a.now }
{
    let name = name::pad_name(a.strip_prefix(b"name=")?);
    if op == b"op=snap".as_slice() {
        return Some(SheetCall::Snap(name));
    }
    if op == b"op=revert".as_slice() {
        return Some(SheetCall::Revert(name));
    }
    None
}

// `op=write block= fill=`, the two words after the first
fn cut_write(a: &[u8], b: &[u8]) -> Option<SheetCall>
    ensures { result ≡ line_of_write a.now b.now }
{
    let block = number::read_pair(a, b"block=")?;
    let fill = u8::try_from(number::read_pair(b, b"fill=")?).ok()?;
    Some(SheetCall::Write(Logical(block), fill))
}

// A read of block `l` from what the text names.
fn read_from(from: &[u8], l: Logical) -> SheetCall
    ensures { result ≡ read_from from.now l.0 }
{
    if from == b"*".as_slice() {
        return SheetCall::Read(Target::Active, l);
    }
    SheetCall::Read(Target::Snapshot(name::pad_name(from)), l)
}

// `op=read from= block=`, the two words after the first
fn cut_read(a: &[u8], b: &[u8]) -> Option<SheetCall>
    ensures { result ≡ line_of_read a.now b.now }
{
    let from = a.strip_prefix(b"from=")?;
    let block = number::read_pair(b, b"block=")?;
    Some(read_from(from, Logical(block)))
}

// `op=write block= fill=`, `op=read from= block=`
pub fn cut_three(op: &[u8], a: &[u8], b: &[u8]) -> Option<SheetCall>
    ensures { result ≡ line_of_three op.now a.now b.now }
{
    if op == b"op=write".as_slice() {
        return cut_write(a, b);
    }
    if op == b"op=read".as_slice() {
        return cut_read(a, b);
    }
    None
}

// `op=ream layout= blocks= volume= name=`
pub fn cut_five(op: &[u8], a: &[u8], b: &[u8], c: &[u8], d: &[u8]) -> Option<SheetCall>
    ensures { result ≡ line_of_five op.now a.now b.now c.now d.now }
{
    if op != b"op=ream".as_slice() {
        return None;
    }
    let layout = number::read_pair(a, b"layout=")?;
    let blocks = number::read_pair(b, b"blocks=")?;
    if SHEET_BLOCKS < blocks {
        return None;
    }
    let volume = number::read_pair(c, b"volume=")?;
    let name = name::pad_name(d.strip_prefix(b"name=")?);
    Some(SheetCall::Ream {
        layout,
        blocks,
        volume,
        name,
    })
}
