// The visit that a block dates from: the name of the region that holds what a read of the target gives.
ghost use Rattle.std.specs.Prelude.{◌≡◌, false, not, ◌&&◌, replicate, IfOk};
ghost use Rattle.blocks.specs.Name.{is_name};
ghost use Rattle.chains.specs.Walk.{Enough};
ghost use Rattle.calls.specs.Call.{Visit, target_as, name_as};
ghost use Rattle.calls.specs.Parts.{area_bad, is_snapshot};
ghost use Rattle.calls.specs.Effect.{as_visited, visited_as};
ghost use Rattle.calls.specs.Step.{step};
ghost use Rattle.dating.specs.Given.{given_as};

use admitting::area;
use blocks::numbers::Logical;
use blocks::sizes::{FEW_STARTS, NAME_SIZE, STARTS_SIZE};
use calls::answer::{Refusal, Target};
use calls::chain::Chain;
use dating::date;
use targets::target;
use walking::chain;

// Names the visit that a block dates from, of the active store or of the snapshot that has the name.
pub fn visit(card: &[u8], target: Target, l: Logical) -> Result<Option<[u8; NAME_SIZE]>, Refusal>
    ensures value { visited_as result ≡ as_visited (step (Visit (target_as target) (name_as target) l.0) card.now).outcome }
    ensures given { IfOk result (λ given. given_as given ≡ (step (Visit (target_as target) (name_as target) l.0) card.now).outcome.given) }
{
    area::admit(card)?;
    if target::is_unnamed(target) {
        return Err(Refusal::BadName);
    }
    // a short chain is walked with few places, so that a card with few snapshots does not wait until 257 are cleared
    if chain::is_short(card) {
        visit_in::<FEW_STARTS>(card, target, l)
    } else {
        visit_in::<STARTS_SIZE>(card, target, l)
    }
}

// The same of a card, once no name is given that is none, by a walk with so many places.
fn visit_in<const PLACES: usize>(
    card: &[u8],
    target: Target,
    l: Logical,
) -> Result<Option<[u8; NAME_SIZE]>, Refusal>
    requires area { area_bad card.now ≡ false }
    requires called { (is_snapshot (target_as target) && not (is_name (name_as target))) ≡ false }
    requires places { Enough card.now (replicate PLACES 0) }
    ensures value { visited_as result ≡ as_visited (step (Visit (target_as target) (name_as target) l.0) card.now).outcome }
    ensures given { IfOk result (λ given. given_as given ≡ (step (Visit (target_as target) (name_as target) l.0) card.now).outcome.given) }
{
    let mut starts = [0u32; PLACES];
    let count = chain::walk_chain(card, &mut starts)?;
    let chain = Chain {
        card,
        starts: &starts[..count + 1],
    };
    let k = target::target_index(card, &chain.starts[..count], target).ok_or(Refusal::NoSnapshot)?;
    let d = chain.descriptor(k);
    if d.volume <= l.0 {
        return Err(Refusal::PastTheVolume);
    }
    date::name_owner(chain, d, l)
}
