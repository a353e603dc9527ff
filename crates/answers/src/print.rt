// What a line prints.
ghost use Rattle.std.specs.Prelude.{◌≡◌, ◌*◌, ◌+◌, ◌≤◌, length};
ghost use Rattle.blocks.specs.Bytes.{splice};
ghost use Rattle.calls.specs.Call.{answered};
ghost use Rattle.calls.specs.Listing.{sheet_records};
ghost use Rattle.printing.specs.Text.{line_room, byte_room, record_room};
ghost use Rattle.sheet.specs.Sheet.{added, count_of, added_byte, added_records, line_text, too_long};

use calls::answer::{Answer, Record, Refusal};
use printing::text::Text;
use reporting::report;
use sheet::run::Addition;

// A read's byte.
fn put_added_byte(out: &mut Text<'_>, addition: Addition)
    requires { out.old.length + byte_room ≤ length out.old.bytes.now }
    ensures value { (out.new.length ≡ out.old.length + length (added_byte addition)) × (out.new.bytes.now ≡ splice out.old.bytes.now out.old.length (added_byte addition)) }
    ensures upper_bound { out.new.length ≤ out.old.length + byte_room }
    ensures lent { (out.new.bytes.ghost_name ≡ out.old.bytes.ghost_name) × (length out.new.bytes.now ≡ length out.old.bytes.now) }
{
    if let Addition::Byte(b) = addition {
        report::put_byte(out, b);
    }
}

// The records of a listing.
fn put_added_records(out: &mut Text<'_>, addition: Addition, records: &[Record])
    requires { (out.old.length + record_room * sheet_records ≤ length out.old.bytes.now) × (count_of addition ≤ length records.now) × (length records.now ≤ sheet_records) }
    ensures value { (out.new.length ≡ out.old.length + length (added_records addition records.now)) × (out.new.bytes.now ≡ splice out.old.bytes.now out.old.length (added_records addition records.now)) }
    ensures upper_bound { out.new.length ≤ out.old.length + record_room * sheet_records }
    ensures lent { (out.new.bytes.ghost_name ≡ out.old.bytes.ghost_name) × (length out.new.bytes.now ≡ length out.old.bytes.now) }
{
    if let Addition::FirstRecords(n) = addition {
        report::put_records(out, &records[..n]);
    }
}

// All that a line prints, from the start of the lent bytes: an answer, what is added to it, and the line feed.
pub fn print_answered(out: &mut Text<'_>, answer: Answer, addition: Addition, records: &[Record])
    requires { (line_room ≤ length out.old.bytes.now) × (count_of addition ≤ length records.now) × (length records.now ≤ sheet_records) }
    ensures value { (out.new.length ≡ length (line_text answer addition records.now)) × (out.new.bytes.now ≡ splice out.old.bytes.now 0 (line_text answer addition records.now)) }
    ensures upper_bound { out.new.length ≤ line_room }
    ensures lent { (out.new.bytes.ghost_name ≡ out.old.bytes.ghost_name) × (length out.new.bytes.now ≡ length out.old.bytes.now) }
{
    out.clear();
    report::put_answer(out, answer);
    put_added_byte(out, addition);
    out.put(b"\n");
    put_added_records(out, addition, records);
}

// The same, by what the line returned and the sheet's records after it.
pub fn print_line(out: &mut Text<'_>, outcome: Result<Addition, Refusal>, records: &[Record])
    requires { (line_room ≤ length out.old.bytes.now) × (count_of (added outcome) ≤ length records.now) × (length records.now ≤ sheet_records) }
    ensures value { (out.new.length ≡ length (line_text (answered outcome) (added outcome) records.now)) × (out.new.bytes.now ≡ splice out.old.bytes.now 0 (line_text (answered outcome) (added outcome) records.now)) }
    ensures upper_bound { out.new.length ≤ line_room }
    ensures lent { (out.new.bytes.ghost_name ≡ out.old.bytes.ghost_name) × (length out.new.bytes.now ≡ length out.old.bytes.now) }
{
    let addition = outcome.unwrap_or(Addition::Nothing);
    print_answered(out, Answer::from(outcome.map(|_| ())), addition, records);
}

// The one line that a sheet of more than 16,384 bytes prints.
#[tactic(auto, unfolding(sheet::specs::Sheet::count_of))]
pub fn print_too_long(out: &mut Text<'_>)
    requires { line_room ≤ length out.old.bytes.now }
    ensures value { (out.new.length ≡ length too_long) × (out.new.bytes.now ≡ splice out.old.bytes.now 0 too_long) }
    ensures upper_bound { out.new.length ≤ line_room }
    ensures lent { (out.new.bytes.ghost_name ≡ out.old.bytes.ghost_name) × (length out.new.bytes.now ≡ length out.old.bytes.now) }
{
    print_line(out, Err(Refusal::BadLine(0)), &[]);
}
