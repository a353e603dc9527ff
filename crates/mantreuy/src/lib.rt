// The static library that C and Rust programs link: the ten calls and the padding of a name, on numbers and lent bytes.
// Each call returns the number of its answer and stores the place; its contract is one equation, by the calls' `step`, the listing's by `listing_of`. A visit stores its name too.
#![tactic(auto)]

ghost use Rattle.std.specs.Prelude.{◌≡◌};
ghost use Rattle.calls.specs.Call.{Ream, Read, Write, Snap, Revert, Check, Visit, SpanRead, SpanWrite, None, Block, answer, answered};
ghost use Rattle.calls.specs.Effect.{as_visited};
ghost use Rattle.calls.specs.Step.{step};
ghost use Rattle.blocks.specs.Descriptor.{format_of};
ghost use Rattle.boundary.specs.Exported.{exported, exported_visit, name_in, target_in, padding_of};
ghost use Rattle.boundary.specs.RecordBytes.{listing_of};

use blocks::descriptor::Format;
use blocks::numbers::Logical;
use blocks::sizes::NAME_SIZE;
use boundary::{argument, record};
use calls::answer::{Answer, Refusal};
use checking::check;
use names::name;
use reading::read;
use reams::ream;
use reverts::revert;
use snaps::snap;
use spanreading::span as span_read;
use spanwriting::span as span_write;
use visiting::visit;
use writes::write;

// Stores the place of an answer, and gives its number.
fn give(called: Result<(), Refusal>, place: &mut u32) -> u32
    ensures { answer result place.new ≡ answered called }
{
    let answer = Answer::from(called);
    *place = answer.place;
    answer.number
}

// Formats the card.
#[unsafe(no_mangle)]
pub extern "C" fn mantreuy_ream(
    card: &mut [u8],
    layout: u32,
    volume: u32,
    revision: u32,
    name: &[u8],
    place: &mut u32,
) -> u32
    ensures { exported result place.new None card.new ≡ step (Ream (format_of layout volume revision (name_in name.now))) card.old }
{
    let format = Format {
        layout,
        volume,
        revision,
        name: argument::name_in(name),
    };
    give(ream::ream(card, format), place)
}

// Reads a block of the active store where `snapshot` is 0, else of the snapshot that has the name.
#[unsafe(no_mangle)]
pub extern "C" fn mantreuy_read(
    card: &[u8],
    snapshot: u32,
    name: &[u8],
    block: u32,
    out: &mut [u8],
    place: &mut u32,
) -> u32
    ensures { exported result place.new (Block out.new) card.now ≡ step (Read (target_in snapshot) (name_in name.now) block out.old) card.now }
{
    let target = argument::target_in(snapshot, name);
    give(read::read(card, target, Logical(block), out), place)
}

// Names the visit that a block dates from, of the active store where `snapshot` is 0, else of the snapshot that has the name: sixteen zeros for none.
#[unsafe(no_mangle)]
pub extern "C" fn mantreuy_visit(
    card: &[u8],
    snapshot: u32,
    name: &[u8],
    block: u32,
    visit: &mut [u8; NAME_SIZE],
    place: &mut u32,
) -> u32
    ensures { exported_visit result place.new visit.new ≡ as_visited (step (Visit (target_in snapshot) (name_in name.now) block) card.now).outcome }
{
    let target = argument::target_in(snapshot, name);
    let visited = visit::visit(card, target, Logical(block));
    *visit = visited.ok().flatten().unwrap_or([0; NAME_SIZE]);
    // as `give` does, in this call alone
    let outcome = Answer::from(visited.map(|_| ()));
    *place = outcome.place;
    outcome.number
}

// Writes a block of the active store.
#[unsafe(no_mangle)]
pub extern "C" fn mantreuy_write(card: &mut [u8], block: u32, bytes: &[u8], place: &mut u32) -> u32
    ensures { exported result place.new (Block bytes.now) card.new ≡ step (Write block bytes.now) card.old }
{
    give(write::write(card, Logical(block), bytes), place)
}

// Reads as many bytes as are lent, from byte `offset` of the volume on, of the active store where `snapshot` is 0, else of the snapshot that has the name.
#[unsafe(no_mangle)]
pub extern "C" fn mantreuy_read_span(
    card: &[u8],
    snapshot: u32,
    name: &[u8],
    offset: u64,
    out: &mut [u8],
    place: &mut u32,
) -> u32
    ensures { exported result place.new (Block out.new) card.now ≡ step (SpanRead (target_in snapshot) (name_in name.now) offset out.old) card.now }
{
    let target = argument::target_in(snapshot, name);
    give(span_read::read_span(card, target, offset, out), place)
}

// Writes all the bytes that are lent, from byte `offset` of the active store on.
#[unsafe(no_mangle)]
pub extern "C" fn mantreuy_write_span(
    card: &mut [u8],
    offset: u64,
    bytes: &[u8],
    place: &mut u32,
) -> u32
    ensures { exported result place.new (Block bytes.now) card.new ≡ step (SpanWrite offset bytes.now) card.old }
{
    give(span_write::write_span(card, offset, bytes), place)
}

// Freezes the active volume under the name.
#[unsafe(no_mangle)]
pub extern "C" fn mantreuy_snap(card: &mut [u8], name: &[u8], place: &mut u32) -> u32
    ensures { exported result place.new None card.new ≡ step (Snap (name_in name.now)) card.old }
{
    give(snap::snap(card, argument::name_in(name)), place)
}

// Back to the snapshot that has the name.
#[unsafe(no_mangle)]
pub extern "C" fn mantreuy_revert(card: &mut [u8], name: &[u8], place: &mut u32) -> u32
    ensures { exported result place.new None card.new ≡ step (Revert (name_in name.now)) card.old }
{
    give(revert::revert(card, argument::name_in(name)), place)
}

// Lists the chain into bytes, 28 for each record.
#[unsafe(no_mangle)]
pub extern "C" fn mantreuy_list(card: &[u8], records: &mut [u8], place: &mut u32) -> u32
    ensures { record { answer = answer result place.new; bytes = records.new } ≡ listing_of card.now records.old }
{
    give(record::list_chain(card, records), place)
}

// Checks the card.
#[unsafe(no_mangle)]
pub extern "C" fn mantreuy_check(card: &[u8], place: &mut u32) -> u32
    ensures { exported result place.new None card.now ≡ step Check card.now }
{
    give(check::check(card), place)
}

// Pads a text to a name: 0, or 4 where the text is no name or `name` has not sixteen bytes.
#[unsafe(no_mangle)]
pub extern "C" fn mantreuy_pad_name(text: &[u8], name: &mut [u8]) -> u32
    ensures { record { number = result; name = name.new } ≡ padding_of text.now name.old }
{
    if name.len() != NAME_SIZE {
        return Refusal::BadName.number();
    }
    let padded = name::pad_name(text);
    if !name::is_name(padded) {
        return Refusal::BadName.number();
    }
    name.copy_from_slice(&padded);
    0
}
