// A write of a span of bytes to the active store.
ghost use Rattle.std.specs.Prelude.{◌≡◌, false, ◌-◌, length, replicate, IfOk};
ghost use Rattle.blocks.specs.Bytes.{store_all};
ghost use Rattle.chains.specs.Walk.{Enough};
ghost use Rattle.calls.specs.Call.{SpanWrite, Block, answered};
ghost use Rattle.calls.specs.Parts.{area_bad};
ghost use Rattle.calls.specs.Spans.{write_span_stores};
ghost use Rattle.calls.specs.Meaning.{answer_of};
ghost use Rattle.calls.specs.Step.{step, done};
ghost use Rattle.spanwriting.specs.Planned.{SpanReady};

use crate::{piece, plan};
use admitting::area;
use blocks::descriptor::Descriptor;
use blocks::numbers::Logical;
use blocks::sizes::{BLOCK_SIZE, FEW_STARTS, STARTS_SIZE};
use calls::answer::Refusal;
use calls::chain::Chain;
use checking::check;
use pieces::piece as pieces_of;
use walking::chain;

// The active descriptor, where the span may be written through it: the tests that follow that of the chain.
fn admit_span(chain: Chain, offset: u64, bytes: &[u8]) -> Result<Descriptor, Refusal>
    requires { area_bad chain.card.now ≡ false }
    ensures answer { answered result ≡ answer_of (SpanWrite offset bytes.now) chain.entry.card.now }
    ensures ready { IfOk result (λ d. SpanReady chain.entry.card.now chain.entry.starts.now (length chain.entry.starts.now - 1) d offset bytes.now) }
{
    let d = chain.active();
    if pieces_of::is_past(d.volume, offset, bytes.len()) {
        return Err(Refusal::PastTheEnd);
    }
    check::check_regions(chain)?;
    let at = offset as usize;
    let taken = plan::span_need(
        chain.card,
        d,
        at,
        pieces_of::blocks_touched(at, bytes.len()),
    );
    if chain.card.len() / BLOCK_SIZE < (d.beta.0 as usize) + taken {
        return Err(Refusal::NoRoom);
    }
    Ok(d)
}

// Writes the blocks of a span one after the other, rising, once all tests are done.
fn write_blocks(
    card: &mut [u8],
    starts: &mut [u32],
    active: Descriptor,
    offset: usize,
    bytes: &[u8],
)
    requires { SpanReady card.old starts.old (length starts.old - 1) active offset bytes.now }
    ensures { card.new ≡ store_all card.old (write_span_stores card.old offset bytes.now) }
{
    let first = offset / BLOCK_SIZE;
    let mut d = active;
    for i in 0..pieces_of::blocks_touched(offset, bytes.len()) {
        d = piece::write_piece(card, starts, d, Logical((first + i) as u32), offset, bytes);
    }
}

// Writes a span where the chain is walked with so many places: the tests from that of the chain on, and then the blocks.
fn write_in<const PLACES: usize>(card: &mut [u8], offset: u64, bytes: &[u8]) -> Result<(), Refusal>
    requires { (area_bad card.old ≡ false) × Enough card.old (replicate PLACES 0) }
    ensures { done (answered result) (Block bytes.now) card.new ≡ step (SpanWrite offset bytes.now) card.old }
{
    let mut places = [0u32; PLACES];
    let count = chain::walk_chain(&*card, &mut places)?;
    let starts = &mut places[..count + 1];
    let chain = Chain {
        card: &*card,
        starts: &*starts,
    };
    let d = admit_span(chain, offset, bytes)?;
    write_blocks(card, starts, d, offset as usize, bytes);
    Ok(())
}

// Writes all the bytes that are lent to the active store from `offset` on, or refuses them all. A short chain is walked with few places.
pub fn write_span(card: &mut [u8], offset: u64, bytes: &[u8]) -> Result<(), Refusal>
    ensures { done (answered result) (Block bytes.now) card.new ≡ step (SpanWrite offset bytes.now) card.old }
{
    area::admit(card)?;
    if chain::is_short(card) {
        write_in::<FEW_STARTS>(card, offset, bytes)
    } else {
        write_in::<STARTS_SIZE>(card, offset, bytes)
    }
}
