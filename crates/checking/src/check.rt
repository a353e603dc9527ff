// The check of a card.
ghost use Rattle.std.specs.Prelude.{◌≡◌, false, ℕ, ◌*◌, ◌-◌, ◌≤◌, length, get_or, replicate};
ghost use Rattle.blocks.specs.Bytes.{block_size, most_blocks};
ghost use Rattle.blocks.specs.Descriptor.{cost_of};
ghost use Rattle.chains.specs.Chain.{chain as chain_of, descriptors, active_of};
ghost use Rattle.chains.specs.Walk.{Enough};
ghost use Rattle.entries.specs.Found.{verdict_as};
ghost use Rattle.entries.specs.Marks.{openings_flagged};
ghost use Rattle.calls.specs.Call.{Check, None, answered};
ghost use Rattle.calls.specs.Check.{check_card, taking_chain};
ghost use Rattle.calls.specs.Parts.{area_bad};
ghost use Rattle.calls.specs.Step.{step, done};

use admitting::area;
use blocks::descriptor;
use blocks::sizes::{BLOCK_SIZE, FEW_STARTS, MOST_BLOCKS, STARTS_SIZE};
use calls::answer::Refusal;
use calls::chain::Chain;
use entries::find::Misplaced;
use flagging::flags;
use judging::check as rules;
use walking::chain;

// The most blocks of a card that is checked with 2,048 flags, and of one that is checked with 16,384. A larger one is checked with `MOST_BLOCKS`.
const SMALL_BLOCKS: usize = 2048;

const MEDIUM_BLOCKS: usize = 16384;

// Checks the descriptors of a sound chain, in chain order. `seen` is zero, with a byte for each block of the card or more.
fn check_chain(chain: Chain, seen: &mut [u8]) -> Result<(), Misplaced>
    requires { ((v : ℕ) → get_or seen.old v 0 ≡ 0) × (length chain.card.now ≤ block_size * length seen.old) }
    ensures value { verdict_as result ≡ check_card chain.entry.card.now }
    ensures seen_after { record { verdict = verdict_as result; flags = seen.new } ≡ taking_chain chain.entry.card.now chain.entry.starts.now (cost_of (active_of (descriptors (chain_of chain.entry.card.now)))) (length chain.entry.starts.now - 1) 0 (openings_flagged seen.old chain.entry.starts.now (cost_of (active_of (descriptors (chain_of chain.entry.card.now)))) (length chain.entry.starts.now - 1)) (descriptors (chain_of chain.entry.card.now)) }
{
    let active = chain.active();
    let cost = descriptor::opening_cost(active.layout, active.volume) as usize;
    let regions = &chain.starts[..chain.count()];
    flags::mark_openings(seen, regions, cost);
    let mut turn = 0;
    for k in 0..chain.count() {
        turn = flags::next_turn(seen, regions, cost, turn);
        rules::check_one(chain.card, chain.descriptor(k), seen, turn)?;
    }
    Ok(())
}

// The same, of a card with at most `FLAGS` blocks.
fn check_within<const FLAGS: usize>(chain: Chain) -> Result<(), Misplaced>
    requires { (length chain.card.now ≤ block_size * FLAGS) × (FLAGS ≤ most_blocks) }
    ensures { verdict_as result ≡ check_card chain.entry.card.now }
{
    let mut seen = [0u8; FLAGS];
    check_chain(chain, &mut seen)
}

// The same, with the smallest of the three numbers of flags that suffices: on a small card to clear more would be most of the work. It is a call of its own, so that
// the stack for the flags is taken by a check that comes to them, and not by one that is refused before.
#[inline(never)]
pub fn check_regions(chain: Chain) -> Result<(), Misplaced>
    ensures { verdict_as result ≡ check_card chain.entry.card.now }
{
    let bytes = chain.card.len();
    if bytes <= BLOCK_SIZE * SMALL_BLOCKS {
        check_within::<SMALL_BLOCKS>(chain)
    } else if bytes <= BLOCK_SIZE * MEDIUM_BLOCKS {
        check_within::<MEDIUM_BLOCKS>(chain)
    } else {
        check_within::<MOST_BLOCKS>(chain)
    }
}

// Checks the card with enough places for the walk: the tests from that of the chain on.
fn check_in<const PLACES: usize>(card: &[u8]) -> Result<(), Refusal>
    requires { (area_bad card.now ≡ false) × Enough card.now (replicate PLACES 0) }
    ensures { done (answered result) None card.now ≡ step Check card.now }
{
    let mut starts = [0u32; PLACES];
    let count = chain::walk_chain(card, &mut starts)?;
    check_regions(Chain {
        card,
        starts: &starts[..count + 1],
    })?;
    Ok(())
}

// Checks the card. A short chain is walked with few places, so that a card with few snapshots does not wait until 257 are cleared.
pub fn check(card: &[u8]) -> Result<(), Refusal>
    ensures { done (answered result) None card.now ≡ step Check card.now }
{
    area::admit(card)?;
    if chain::is_short(card) {
        check_in::<FEW_STARTS>(card)
    } else {
        check_in::<STARTS_SIZE>(card)
    }
}
