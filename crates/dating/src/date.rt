// The name of the region that contains the block of a logical number, through a descriptor of the chain.
ghost use Rattle.std.specs.Prelude.{◌≡◌, ◌-◌, ◌<◌, length, IfOk};
ghost use Rattle.chains.specs.Chain.{chain as chain_of, descriptors};
ghost use Rattle.entries.specs.Through.{Through};
ghost use Rattle.entries.specs.Entry.{locate as locating};
ghost use Rattle.dating.specs.Given.{given_as};
ghost use Rattle.calls.specs.Effect.{given_at, visited, visited_as};

use blocks::descriptor;
use blocks::descriptor::Descriptor;
use blocks::numbers::Logical;
use blocks::sizes::NAME_SIZE;
use calls::answer::Refusal;
use calls::chain::Chain;
use finding::find;

// The name of the region that contains the block of logical number `l` through the descriptor `d`, none where that is nil, or the refusal of an entry that is
// not in place.
pub fn name_owner(
    chain: Chain,
    d: Descriptor,
    l: Logical,
) -> Result<Option<[u8; NAME_SIZE]>, Refusal>
    requires { Through chain.card.now chain.starts.now (length chain.starts.now - 1) d × (l.0 < d.volume) }
    ensures value { visited_as result ≡ visited (descriptors (chain_of chain.entry.card.now)) (locating chain.entry.card.now (descriptors (chain_of chain.entry.card.now)) d l.0) }
    ensures given { IfOk result (λ name. given_as name ≡ given_at (descriptors (chain_of chain.entry.card.now)) (locating chain.entry.card.now (descriptors (chain_of chain.entry.card.now)) d l.0)) }
{
    let (slot, owner) = find::locate(chain, d, l)?;
    if slot.entry.0 == 0 {
        return Ok(None);
    }
    let start = chain.start(owner);
    Ok(Some(descriptor::name_at(chain.card, start)))
}
