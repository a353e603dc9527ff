// The bytes of a span through a descriptor: all its entries are looked at before a byte is filled.
ghost use Rattle.std.specs.Prelude.{◌≡◌, false, List, ℕ, ◌+◌, ◌*◌, ◌-◌, ◌≤◌, ◌<◌, ◌^◌, length, eqb};
ghost use Rattle.blocks.specs.Pick.{pick};
ghost use Rattle.blocks.specs.Bytes.{zero_block, block_at, block_size, part, splice};
ghost use Rattle.chains.specs.Chain.{chain as chain_of, descriptors};
ghost use Rattle.entries.specs.Through.{Through};
ghost use Rattle.entries.specs.Entry.{find as finding};
ghost use Rattle.calls.specs.Call.{answered};
ghost use Rattle.calls.specs.Parts.{is_misplaced, block_found};
ghost use Rattle.calls.specs.Check.{is_fault};
ghost use Rattle.calls.specs.Spans.{span_verdict, span_bytes};
ghost use Rattle.pieces.specs.Span.{piece_of, piece_in};
ghost use Rattle.spanreading.specs.Fetched.{fetched};

use crate::groups;
use blocks::descriptor::Descriptor;
use blocks::numbers::{Logical, Physical};
use blocks::sizes::BLOCK_SIZE;
use calls::answer::Refusal;
use calls::chain::Chain;
use finding::find;
use pieces::piece;

// Copies a part of a block into what is lent for it, by way of a copy of its own, of which the compiler makes one move: from slice to slice it takes 23
// instructions more.
fn put_part(out: &mut [u8], from: &[u8])
    requires { (length out.old ≡ length from.now) × (length from.now ≤ block_size) }
    ensures { out.new ≡ from.now }
{
    let mut copy = [0u8; BLOCK_SIZE];
    let part = &mut copy[..from.len()];
    part.copy_from_slice(from);
    out.copy_from_slice(part);
}

// The caller's bytes are now those of block `p` from its byte `first` on, or zeros where it is nil.
fn fill_piece(card: &[u8], p: Physical, first: usize, out: &mut [u8])
    requires { (first + length out.old ≤ block_size) × ((p.0 ≡ 0 → ⊥) → block_size * p.0 + block_size ≤ length card.now) }
    ensures { out.new ≡ part (pick (eqb p.0 0) zero_block (block_at card.now p.0)) first (length out.old) }
{
    if p.is_nil() {
        // `fill` takes 8 to 10 instructions more, and so spans of 700 bytes up to 1.24 times the baseline in place of 1.17
        let zeros = [0u8; BLOCK_SIZE];
        out.copy_from_slice(&zeros[..out.len()]);
        return;
    }
    let at = p.start() + first;
    put_part(out, &card[at..at + out.len()]);
}

// The piece of the span in logical block `l`, put where it stands among the caller's bytes.
fn fetch_piece(card: &[u8], d: Descriptor, l: usize, offset: usize, out: &mut [u8])
    requires { ((starts : List ℕ) × (count : ℕ) × Through card.now starts count d) × (l < d.volume) × (is_misplaced (finding card.now (descriptors (chain_of card.now)) d l) ≡ false) × (block_size * l < offset + length out.old) × (offset < block_size * l + block_size) × (offset + length out.old < 2 ^ 64) }
    ensures { out.new ≡ splice out.old (piece_of offset (length out.old) l).stands (piece_in (block_found card.now (finding card.now (descriptors (chain_of card.now)) d l)) offset (length out.old) l) }
{
    let slot = find::entry_of(card, d, Logical(l as u32));
    let q = piece::piece_in(offset, out.len(), l);
    fill_piece(
        card,
        slot.entry,
        q.first,
        &mut out[q.stands..q.stands + q.count],
    );
}

// The caller's bytes are now those of the volume from `offset` on: each is copied once. All entries on the way are in place.
fn gather(card: &[u8], d: Descriptor, offset: usize, out: &mut [u8])
    requires { ((starts : List ℕ) × (count : ℕ) × Through card.now starts count d) × (offset + length out.old ≤ block_size * d.volume) × (is_fault (span_verdict card.now d offset (length out.old)) ≡ false) }
    ensures { out.new ≡ span_bytes card.now d offset (length out.old) }
{
    let first = offset / BLOCK_SIZE;
    for i in 0..piece::blocks_touched(offset, out.len()) {
        fetch_piece(card, d, first + i, offset, out);
    }
}

// Fills the caller's bytes with those of the volume from `offset` on, or gives the refusal of the first entry that is not in place.
pub fn fetch(chain: Chain, d: Descriptor, offset: usize, out: &mut [u8]) -> Result<(), Refusal>
    requires { Through chain.card.now chain.starts.now (length chain.starts.now - 1) d × (offset + length out.old ≤ block_size * d.volume) }
    ensures { record { answer = answered result; bytes = out.new } ≡ fetched chain.entry.card.now d offset out.old }
{
    let first = offset / BLOCK_SIZE;
    let end = first + piece::blocks_touched(offset, out.len());
    groups::blocks_in_place(chain, d, first as u32, end as u32)?;
    gather(chain.card, d, offset, out);
    Ok(())
}
