// Records as bytes: sixteen of the name, then alpha, beta and next, each of 32 bits, lowest byte first.
ghost use Rattle.std.specs.Prelude.{◌≡◌, ℕ, ◌+◌, ◌*◌, ◌≤◌, ◌<◌, length, replicate, get_or};
ghost use Rattle.blocks.specs.Bytes.{block_size, splice};
ghost use Rattle.chains.specs.Walk.{Enough};
ghost use Rattle.calls.specs.Call.{answered};
ghost use Rattle.boundary.specs.RecordBytes.{record_size, record_bytes, filled_bytes, listing_of};

use blocks::sizes::{FEW_STARTS, STARTS_SIZE};
use blocks::{bytes, descriptor};
use calls::answer::{Record, Refusal};
use listing::list;
use walking::chain;

// Bytes of a record.
pub const RECORD_SIZE: usize = 28;

// Stores the bytes of a record at `at`.
fn put_record_bytes(area: &mut [u8], at: usize, r: Record)
    requires { at + record_size ≤ length area.old }
    ensures { area.new ≡ splice area.old at (record_bytes r) }
{
    descriptor::put_name(area, at, r.name);
    bytes::put_u32(area, at + 16, r.alpha.0);
    bytes::put_u32(area, at + 20, r.beta.0);
    bytes::put_u32(area, at + 24, r.next.0);
}

// The first `n` records are now those of the `n` regions.
fn fill_bytes(card: &[u8], starts: &[u32], area: &mut [u8], n: usize)
    requires { (record_size * n ≤ length area.old) × (n < length starts.now) × ((j : ℕ) → j < n → block_size * get_or starts.now j 0 + block_size ≤ length card.now) }
    ensures { area.new ≡ filled_bytes card.now starts.now area.old n }
{
    // by index: after a loop over `chunks_exact_mut` a proof knows how many bytes there are, and none of them
    for k in 0..n {
        let r = list::record_of(card, &starts[..n + 1], k);
        put_record_bytes(area, RECORD_SIZE * k, r);
    }
}

// Lists the chain into bytes.
pub fn list_chain(card: &[u8], area: &mut [u8]) -> Result<(), Refusal>
    ensures { record { answer = answered result; bytes = area.new } ≡ listing_of card.now area.old }
{
    // a short chain is walked with few places, so that a card with few snapshots does not wait until 257 are cleared
    if chain::is_short(card) {
        list_in::<FEW_STARTS>(card, area)
    } else {
        list_in::<STARTS_SIZE>(card, area)
    }
}

// The same by a walk with so many places.
fn list_in<const PLACES: usize>(card: &[u8], area: &mut [u8]) -> Result<(), Refusal>
    requires { Enough card.now (replicate PLACES 0) }
    ensures { record { answer = answered result; bytes = area.new } ≡ listing_of card.now area.old }
{
    let mut starts = [0u32; PLACES];
    let room = area.len() / RECORD_SIZE;
    let count = list::count_listed(card, &mut starts, room)?;
    fill_bytes(card, &starts[..count + 1], area, count);
    Ok(())
}
