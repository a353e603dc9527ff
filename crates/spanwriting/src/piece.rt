// The write of one block of a span: its own bytes where the span covers it whole, else what was there with the span's bytes laid over.
ghost use Rattle.std.specs.Prelude.{◌≡◌, ◌+◌, ◌*◌, ◌-◌, ◌/◌, ◌≤◌, ◌<◌, ◌^◌, length, eqb};
ghost use Rattle.blocks.specs.Pick.{pick};
ghost use Rattle.blocks.specs.Bytes.{zero_block, block_at, block_size, splice, store_all};
ghost use Rattle.pieces.specs.Span.{merged};
ghost use Rattle.entries.specs.Through.{WriteReady};
ghost use Rattle.entries.specs.Entry.{need, writing};
ghost use Rattle.entries.specs.Found.{entry_in};
ghost use Rattle.calls.specs.Stores.{write_stores};
ghost use Rattle.calls.specs.Spans.{merged_on};
ghost use Rattle.spanwriting.specs.Planned.{ActiveCard, PieceReady};

use blocks::bytes;
use blocks::descriptor::Descriptor;
use blocks::numbers::{Logical, Physical};
use blocks::sizes::BLOCK_SIZE;
use calls::chain::Chain;
use entries::find::Slot;
use finding::find;
use needing::need;
use pieces::piece;
use placing::put;

// Block `p`, or zeros where it is nil, with the bytes laid over it from its byte `first` on.
fn overlaid(card: &[u8], p: Physical, first: usize, bytes: &[u8]) -> [u8; BLOCK_SIZE]
    requires { (first + length bytes.now ≤ block_size) × ((p.0 ≡ 0 → ⊥) → block_size * p.0 + block_size ≤ length card.now) }
    ensures { result ≡ splice (pick (eqb p.0 0) zero_block (block_at card.now p.0)) first bytes.now }
{
    let mut block = if p.is_nil() {
        [0; BLOCK_SIZE]
    } else {
        bytes::array_at(card, p.start())
    };
    bytes::put_bytes(&mut block, first, bytes);
    block
}

// Stores the piece of the span in logical block `l` through the slot.
fn put_piece(
    card: &mut [u8],
    d: Descriptor,
    slot: Slot,
    l: Logical,
    taken: u32,
    offset: usize,
    bytes: &[u8],
)
    requires { WriteReady card.old d slot.table.0 slot.entry.0 l.0 (merged (pick (eqb slot.entry.0 0) zero_block (block_at card.old slot.entry.0)) offset bytes.now l.0) × (taken ≡ need d.alpha.0 (entry_in slot)) × (d.beta.0 + taken ≤ length card.old / block_size) × (block_size * l.0 < offset + length bytes.now) × (offset < block_size * l.0 + block_size) × (offset + length bytes.now < 2 ^ 64) }
    ensures { card.new ≡ store_all card.old (writing card.old d (entry_in slot) l.0 (merged (pick (eqb slot.entry.0 0) zero_block (block_at card.old slot.entry.0)) offset bytes.now l.0)) }
{
    let q = piece::piece_in(offset, bytes.len(), l.0 as usize);
    let own = &bytes[q.stands..q.stands + q.count];
    if q.count == BLOCK_SIZE {
        put::put_block(card, d, slot, l, taken, own);
    } else {
        let block = overlaid(&*card, slot.entry, q.first, own);
        put::put_block(card, d, slot, l, taken, &block);
    }
}

// Writes the span's piece in logical block `l`: the block's own write. What the walk found, and the active descriptor, are then those of the card as it is.
pub fn write_piece(
    card: &mut [u8],
    starts: &mut [u32],
    d: Descriptor,
    l: Logical,
    offset: usize,
    bytes: &[u8],
) -> Descriptor
    requires { PieceReady card.old starts.old (length starts.old - 1) d l.0 offset bytes.now }
    ensures card_after { card.new ≡ store_all card.old (write_stores card.old l.0 (merged_on card.old offset bytes.now l.0)) }
    ensures active_card { ActiveCard card.new starts.new (length starts.new - 1) result }
{
    let end = starts.len() - 1;
    let chain = Chain {
        card: &*card,
        starts: &*starts,
    };
    let (slot, owner) = find::locate(chain, d, l).unwrap();
    let taken = need::need(end - 1, d.alpha, Ok((slot, owner)));
    put_piece(card, d, slot, l, taken, offset, bytes);
    let e = d.extended(taken);
    starts[end] = e.beta.0;
    e
}
