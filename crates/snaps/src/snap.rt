// A snapshot of the active volume.
ghost use Rattle.std.specs.Prelude.{◌≡◌, false, ◌+◌, ◌*◌, ◌≤◌, ◌<◌, length, replicate};
ghost use Rattle.blocks.specs.Bytes.{store_all, block_size};
ghost use Rattle.blocks.specs.Descriptor.{cost_of};
ghost use Rattle.chains.specs.Walk.{Enough};
ghost use Rattle.calls.specs.Call.{Snap, None, answered};
ghost use Rattle.calls.specs.Parts.{area_bad};
ghost use Rattle.calls.specs.Stores.{snapping};
ghost use Rattle.calls.specs.Effect.{site_of, site_as};
ghost use Rattle.calls.specs.Step.{step, done};

use admitting::area;
use blocks::descriptor;
use blocks::descriptor::Descriptor;
use blocks::numbers::Physical;
use blocks::sizes::{BLOCK_SIZE, FEW_STARTS, MOST_SNAPSHOTS, NAME_SIZE, STARTS_SIZE};
use calls::answer::Refusal;
use calls::chain::Chain;
use indexing::index;
use names::name;
use regions::region;
use walking::chain;

// Opens a region at the active descriptor's beta, and leaves that descriptor behind under the name.
fn take_snapshot(card: &mut [u8], d: Descriptor, cost: u32, name: [u8; NAME_SIZE])
    requires { (cost ≡ cost_of d) × (d.alpha.0 + cost ≤ d.beta.0) × (block_size * (d.beta.0 + cost) ≤ length card.old) × (d.beta.0 + cost < 4294967296) × (1 ≤ cost) }
    ensures { card.new ≡ store_all card.old (snapping card.old d name) }
{
    let closed = d.renamed(name).linked(d.beta);
    region::open_region(card, d, cost);
    descriptor::put_descriptor(card, d.alpha, closed);
}

// Where a snapshot is taken: at the active descriptor, which the walk finds with so many places.
fn site_in<const PLACES: usize>(card: &[u8], name: [u8; NAME_SIZE]) -> Result<Physical, Refusal>
    requires { (area_bad card.now ≡ false) × Enough card.now (replicate PLACES 0) }
    ensures { site_as result ≡ site_of card.now name }
{
    let mut starts = [0u32; PLACES];
    let count = chain::walk_chain(card, &mut starts)?;
    let chain = Chain {
        card,
        starts: &starts[..count + 1],
    };
    if index::is_named(card, &chain.starts[..count], name) {
        return Err(Refusal::NameInUse);
    }
    if MOST_SNAPSHOTS < count {
        return Err(Refusal::TooManySnapshots);
    }
    Ok(chain.start(count - 1))
}

// Where a snapshot is taken. A short chain is walked with few places.
fn site(card: &[u8], name: [u8; NAME_SIZE]) -> Result<Physical, Refusal>
    requires { area_bad card.now ≡ false }
    ensures { site_as result ≡ site_of card.now name }
{
    if chain::is_short(card) {
        site_in::<FEW_STARTS>(card, name)
    } else {
        site_in::<STARTS_SIZE>(card, name)
    }
}

// Freezes the active volume under the name: where that is done is found before anything is stored.
pub fn snap(card: &mut [u8], name: [u8; NAME_SIZE]) -> Result<(), Refusal>
    ensures { done (answered result) None card.new ≡ step (Snap name) card.old }
{
    area::admit(card)?;
    if !name::is_name(name) {
        return Err(Refusal::BadName);
    }
    let alpha = site(card, name)?;
    let d = descriptor::read_descriptor(card, alpha);
    let cost = d.cost();
    let end = (d.beta.0 as usize) + (cost as usize);
    if card.len() / BLOCK_SIZE < end {
        return Err(Refusal::NoRoom);
    }
    take_snapshot(card, d, cost, name);
    Ok(())
}
