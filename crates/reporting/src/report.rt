// What a call answered, put at the end of a text.
ghost use Rattle.std.specs.Prelude.{◌≡◌, ◌+◌, ◌*◌, ◌≤◌, length};
ghost use Rattle.blocks.specs.Bytes.{splice};
ghost use Rattle.printing.specs.Text.{answer_room, byte_room, record_room, answer_text, byte_text, record_text, records_text};

use calls::answer::{Answer, Record};
use printing::text::Text;

// The number and the place of an answer.
pub fn put_answer(out: &mut Text<'_>, a: Answer)
    requires { out.old.length + answer_room ≤ length out.old.bytes.now }
    ensures value { (out.new.length ≡ out.old.length + length (answer_text a)) × (out.new.bytes.now ≡ splice out.old.bytes.now out.old.length (answer_text a)) }
    ensures upper_bound { out.new.length ≤ out.old.length + answer_room }
    ensures lent { (out.new.bytes.ghost_name ≡ out.old.bytes.ghost_name) × (length out.new.bytes.now ≡ length out.old.bytes.now) }
{
    out.put_field(b"answer=", a.number);
    out.put_field(b" place=", a.place);
}

// The byte that a read adds to its answer.
pub fn put_byte(out: &mut Text<'_>, b: u8)
    requires { out.old.length + byte_room ≤ length out.old.bytes.now }
    ensures value { (out.new.length ≡ out.old.length + length (byte_text b)) × (out.new.bytes.now ≡ splice out.old.bytes.now out.old.length (byte_text b)) }
    ensures upper_bound { out.new.length ≤ out.old.length + byte_room }
    ensures lent { (out.new.bytes.ghost_name ≡ out.old.bytes.ghost_name) × (length out.new.bytes.now ≡ length out.old.bytes.now) }
{
    out.put_field(b" byte=", u32::from(b));
}

// A record of a listing, with the line feed that ends it, put at index `at` of the lent bytes: the index after it.
fn put_record(bytes: &mut [u8], at: usize, r: Record) -> usize
    requires { at + record_room ≤ length bytes.old }
    ensures value { (result ≡ at + length (record_text r)) × (bytes.new ≡ splice bytes.old at (record_text r)) }
    ensures upper_bound { result ≤ at + record_room }
{
    let mut out = Text::after(bytes, at);
    out.put(b"name=");
    out.put_name(r.name);
    out.put_field(b" alpha=", r.alpha.0);
    out.put_field(b" beta=", r.beta.0);
    out.put_field(b" next=", r.next.0);
    out.put(b"\n");
    out.length
}

// The records, one after the other.
pub fn put_records(out: &mut Text<'_>, records: &[Record])
    requires { out.old.length + record_room * length records.now ≤ length out.old.bytes.now }
    ensures value { (out.new.length ≡ out.old.length + length (records_text records.now)) × (out.new.bytes.now ≡ splice out.old.bytes.now out.old.length (records_text records.now)) }
    ensures upper_bound { out.new.length ≤ out.old.length + record_room * length records.now }
    ensures lent { (out.new.bytes.ghost_name ≡ out.old.bytes.ghost_name) × (length out.new.bytes.now ≡ length out.old.bytes.now) }
{
    let mut next = out.length;
    for r in records {
        next = put_record(out.bytes, next, *r);
    }
    out.length = next;
}
