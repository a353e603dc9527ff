// A read of a span of bytes.
ghost use Rattle.std.specs.Prelude.{◌≡◌, false, not, ◌&&◌, replicate};
ghost use Rattle.blocks.specs.Name.{is_name};
ghost use Rattle.chains.specs.Walk.{Enough};
ghost use Rattle.calls.specs.Call.{SpanRead, Block, answered, target_as, name_as};
ghost use Rattle.calls.specs.Parts.{area_bad, is_snapshot};
ghost use Rattle.calls.specs.Step.{step, done};

use crate::fetch;
use admitting::area;
use blocks::sizes::{FEW_STARTS, STARTS_SIZE};
use calls::answer::{Refusal, Target};
use calls::chain::Chain;
use pieces::piece;
use targets::target;
use walking::chain;

// Reads the span where the chain is walked with so many places.
fn read_in<const PLACES: usize>(
    card: &[u8],
    target: Target,
    offset: u64,
    out: &mut [u8],
) -> Result<(), Refusal>
    requires area { area_bad card.now ≡ false }
    requires places { Enough card.now (replicate PLACES 0) }
    requires called { (is_snapshot (target_as target) && not (is_name (name_as target))) ≡ false }
    ensures { done (answered result) (Block out.new) card.now ≡ step (SpanRead (target_as target) (name_as target) offset out.old) card.now }
{
    let mut starts = [0u32; PLACES];
    let count = chain::walk_chain(card, &mut starts)?;
    let chain = Chain {
        card,
        starts: &starts[..count + 1],
    };
    let k = target::target_index(card, &chain.starts[..count], target).ok_or(Refusal::NoSnapshot)?;
    let d = chain.descriptor(k);
    if piece::is_past(d.volume, offset, out.len()) {
        return Err(Refusal::PastTheEnd);
    }
    fetch::fetch(chain, d, offset as usize, out)
}

// Reads as many bytes as are lent, from `offset` on, of the active store or of the snapshot that has the name. A short chain is walked with few places.
#[tactic(auto, using(calls::proofs::ResultLaws::admitted))]
pub fn read_span(card: &[u8], target: Target, offset: u64, out: &mut [u8]) -> Result<(), Refusal>
    ensures { done (answered result) (Block out.new) card.now ≡ step (SpanRead (target_as target) (name_as target) offset out.old) card.now }
{
    area::admit(card)?;
    if target::is_unnamed(target) {
        return Err(Refusal::BadName);
    }
    if chain::is_short(card) {
        read_in::<FEW_STARTS>(card, target, offset, out)
    } else {
        read_in::<STARTS_SIZE>(card, target, offset, out)
    }
}
