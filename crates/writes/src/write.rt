// A write of one block to the active store.
ghost use Rattle.std.specs.Prelude.{◌≡◌, false, replicate};
ghost use Rattle.chains.specs.Walk.{Enough};
ghost use Rattle.entries.specs.Entry.{need};
ghost use Rattle.entries.specs.Found.{entry_in};
ghost use Rattle.entries.specs.Through.{WriteReady};
ghost use Rattle.calls.specs.Call.{Write, Block, answered};
ghost use Rattle.calls.specs.Parts.{area_bad};
ghost use Rattle.calls.specs.Effect.{aim_of, aim_as, written};
ghost use Rattle.calls.specs.Step.{step, done};

use admitting::area;
use blocks::descriptor;
use blocks::descriptor::Descriptor;
use blocks::numbers::Logical;
use blocks::sizes::{BLOCK_SIZE, FEW_STARTS, STARTS_SIZE};
use calls::answer::{Aim, Refusal};
use calls::chain::Chain;
use entries::find::Slot;
use finding::find;
use needing::need;
use placing::put;
use walking::chain;

// Writes the block through the slot, if there is room for the blocks that it takes.
fn write_found(
    card: &mut [u8],
    d: Descriptor,
    slot: Slot,
    l: Logical,
    taken: u32,
    block: &[u8],
) -> Result<(), Refusal>
    requires { WriteReady card.old d slot.table.0 slot.entry.0 l.0 block.now × (taken ≡ need d.alpha.0 (entry_in slot)) }
    ensures { record { answer = answered result; card = card.new } ≡ written card.old d (entry_in slot) l.0 block.now }
{
    if card.len() / BLOCK_SIZE < (d.beta.0 as usize) + (taken as usize) {
        return Err(Refusal::NoRoom);
    }
    put::put_block(card, d, slot, l, taken, block);
    Ok(())
}

// Where a write goes: through the active descriptor, which the walk finds with so many places, to the entry of the block.
fn aim_in<const PLACES: usize>(card: &[u8], l: Logical) -> Result<Aim, Refusal>
    requires { (area_bad card.now ≡ false) × Enough card.now (replicate PLACES 0) }
    ensures { aim_as result ≡ aim_of card.now l.0 }
{
    let mut starts = [0u32; PLACES];
    let count = chain::walk_chain(card, &mut starts)?;
    let chain = Chain {
        card,
        starts: &starts[..count + 1],
    };
    let d = chain.active();
    if d.volume <= l.0 {
        return Err(Refusal::PastTheVolume);
    }
    let (slot, owner) = find::locate(chain, d, l)?;
    let alpha = d.alpha;
    let taken = need::need(count - 1, alpha, Ok((slot, owner)));
    Ok(Aim { alpha, slot, taken })
}

// Where a write goes. A short chain is walked with few places.
fn aim(card: &[u8], l: Logical) -> Result<Aim, Refusal>
    requires { area_bad card.now ≡ false }
    ensures { aim_as result ≡ aim_of card.now l.0 }
{
    if chain::is_short(card) {
        aim_in::<FEW_STARTS>(card, l)
    } else {
        aim_in::<STARTS_SIZE>(card, l)
    }
}

// Writes a block of the active store: where it goes is found before anything is stored.
pub fn write(card: &mut [u8], l: Logical, block: &[u8]) -> Result<(), Refusal>
    ensures { done (answered result) (Block block.now) card.new ≡ step (Write l.0 block.now) card.old }
{
    area::admit(card)?;
    if block.len() != BLOCK_SIZE {
        return Err(Refusal::BadBlock);
    }
    let at = aim(card, l)?;
    let d = descriptor::read_descriptor(card, at.alpha);
    write_found(card, d, at.slot, l, at.taken, block)
}
