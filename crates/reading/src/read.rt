// A read of one block.
ghost use Rattle.std.specs.Prelude.{◌≡◌, false, not, ◌&&◌, ◌+◌, ◌*◌, ◌≤◌, length, replicate, eqb};
ghost use Rattle.blocks.specs.Pick.{pick};
ghost use Rattle.blocks.specs.Bytes.{zero_block, block_at, block_size};
ghost use Rattle.blocks.specs.Name.{is_name};
ghost use Rattle.chains.specs.Walk.{Enough};
ghost use Rattle.calls.specs.Call.{Read, Block, answered, target_as, name_as};
ghost use Rattle.calls.specs.Parts.{area_bad, is_snapshot};
ghost use Rattle.calls.specs.Step.{step, done};

use admitting::area;
use blocks::bytes;
use blocks::numbers::{Logical, Physical};
use blocks::sizes::{BLOCK_SIZE, FEW_STARTS, STARTS_SIZE};
use calls::answer::{Refusal, Target};
use calls::chain::Chain;
use finding::find;
use targets::target;
use walking::chain;

// The caller's block is now block `p`, or zeros where that is nil.
fn fill_block(card: &[u8], p: Physical, out: &mut [u8])
    requires { (length out.old ≡ block_size) × ((p.0 ≡ 0 → ⊥) → block_size * p.0 + block_size ≤ length card.now) }
    ensures { out.new ≡ pick (eqb p.0 0) zero_block (block_at card.now p.0) }
{
    if p.is_nil() {
        out.fill(0);
        return;
    }
    let at = p.start();
    bytes::put_whole(out, 0, &card[at..at + BLOCK_SIZE]);
}

// Reads the block where the chain is walked with so many places.
fn read_in<const PLACES: usize>(
    card: &[u8],
    target: Target,
    l: Logical,
    out: &mut [u8],
) -> Result<(), Refusal>
    requires area { area_bad card.now ≡ false }
    requires places { Enough card.now (replicate PLACES 0) }
    requires called { (is_snapshot (target_as target) && not (is_name (name_as target))) ≡ false }
    requires whole { length out.old ≡ block_size }
    ensures { done (answered result) (Block out.new) card.now ≡ step (Read (target_as target) (name_as target) l.0 out.old) card.now }
{
    let mut starts = [0u32; PLACES];
    let count = chain::walk_chain(card, &mut starts)?;
    let chain = Chain {
        card,
        starts: &starts[..count + 1],
    };
    let k = target::target_index(card, &chain.starts[..count], target).ok_or(Refusal::NoSnapshot)?;
    let d = chain.descriptor(k);
    if d.volume <= l.0 {
        return Err(Refusal::PastTheVolume);
    }
    let (slot, _) = find::locate(chain, d, l)?;
    fill_block(card, slot.entry, out);
    Ok(())
}

// Reads a block of the active store, or of the snapshot that has the name. A short chain is walked with few places, so that a card with few snapshots does not
// wait until 257 are cleared.
#[tactic(auto, using(calls::proofs::ResultLaws::admitted))]
pub fn read(card: &[u8], target: Target, l: Logical, out: &mut [u8]) -> Result<(), Refusal>
    ensures { done (answered result) (Block out.new) card.now ≡ step (Read (target_as target) (name_as target) l.0 out.old) card.now }
{
    area::admit(card)?;
    if target::is_unnamed(target) {
        return Err(Refusal::BadName);
    }
    if out.len() != BLOCK_SIZE {
        return Err(Refusal::BadBlock);
    }
    if chain::is_short(card) {
        read_in::<FEW_STARTS>(card, target, l, out)
    } else {
        read_in::<STARTS_SIZE>(card, target, l, out)
    }
}
