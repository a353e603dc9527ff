// Back to a snapshot.
ghost use Rattle.std.specs.Prelude.{◌≡◌, true, false, replicate, IfOk};
ghost use Rattle.blocks.specs.Name.{is_name};
ghost use Rattle.chains.specs.Chain.{active_of};
ghost use Rattle.chains.specs.Walk.{Enough};
ghost use Rattle.calls.specs.Call.{Revert, None, answered};
ghost use Rattle.calls.specs.Parts.{area_bad, descriptors_of, snapshots_of, with_name};
ghost use Rattle.calls.specs.Meaning.{answer_of};
ghost use Rattle.calls.specs.Step.{step, done};

use admitting::area;
use blocks::descriptor;
use blocks::descriptor::Descriptor;
use blocks::numbers::Physical;
use blocks::sizes::{FEW_STARTS, NAME_SIZE, STARTS_SIZE};
use calls::answer::Refusal;
use calls::chain::Chain;
use indexing::index;
use names::name;
use regions::region;
use walking::chain;

// The snapshot that has the name, and the active descriptor. The walk finds them with so many places.
fn snapshot_in<const PLACES: usize>(
    card: &[u8],
    name: [u8; NAME_SIZE],
) -> Result<(Descriptor, Descriptor), Refusal>
    requires { (area_bad card.now ≡ false) × (is_name name ≡ true) × Enough card.now (replicate PLACES 0) }
    ensures answer { answered result ≡ answer_of (Revert name) card.now }
    ensures value { IfOk result (λ f. (f.0 ≡ with_name (snapshots_of (descriptors_of card.now)) name) × (f.1 ≡ active_of (descriptors_of card.now))) }
{
    let mut starts = [0u32; PLACES];
    let count = chain::walk_chain(card, &mut starts)?;
    let chain = Chain {
        card,
        starts: &starts[..count + 1],
    };
    let k = index::index_of(card, &chain.starts[..count - 1], name).ok_or(Refusal::NoSnapshot)?;
    Ok((chain.descriptor(k), chain.active()))
}

// The same. A short chain is walked with few places.
fn snapshot(card: &[u8], name: [u8; NAME_SIZE]) -> Result<(Descriptor, Descriptor), Refusal>
    requires { (area_bad card.now ≡ false) × (is_name name ≡ true) }
    ensures answer { answered result ≡ answer_of (Revert name) card.now }
    ensures value { IfOk result (λ f. (f.0 ≡ with_name (snapshots_of (descriptors_of card.now)) name) × (f.1 ≡ active_of (descriptors_of card.now))) }
{
    if chain::is_short(card) {
        snapshot_in::<FEW_STARTS>(card, name)
    } else {
        snapshot_in::<STARTS_SIZE>(card, name)
    }
}

// Rolls the card back to the snapshot that has the name, which is found before anything is stored: with the active name and a nil next it is what is gone back to. On
// revision 1 a region opens at its beta and the snapshot stays; on revision 0 its descriptor becomes the active one.
pub fn revert(card: &mut [u8], name: [u8; NAME_SIZE]) -> Result<(), Refusal>
    ensures { done (answered result) None card.new ≡ step (Revert name) card.old }
{
    area::admit(card)?;
    if !name::is_name(name) {
        return Err(Refusal::BadName);
    }
    let (v, active) = snapshot(card, name)?;
    let v = v.renamed(active.name).linked(Physical(0));
    match descriptor::revision_at(card, Physical(0)) {
        1 => region::open_region(card, v, v.cost()),
        _ => descriptor::put_descriptor(card, v.alpha, v),
    }
    Ok(())
}
