// The blocks that a span takes, counted on the card before anything is stored.
ghost use Rattle.std.specs.Prelude.{◌≡◌, List, ℕ, ◌+◌, ◌*◌, ◌/◌, ◌≤◌, ◌<◌};
ghost use Rattle.blocks.specs.Bytes.{block_size};
ghost use Rattle.calls.specs.Check.{Passes};
ghost use Rattle.spanwriting.specs.Planned.{counted_at, planned_need, ActiveCard};

use blocks::descriptor::Descriptor;
use blocks::numbers::Logical;
use blocks::sizes::{BLOCK_SIZE, TABLE_SIZE};
use finding::find;
use needing::need;

// What block `i` of the span takes. A block that follows one of its group finds a table block of the active region, which the span has made or found: where the block
// before takes nothing, its table block is there already, since on a card that passes an entry at or above alpha has its table block at or above alpha.
fn block_need(card: &[u8], d: Descriptor, offset: usize, i: usize) -> u32
    requires { ((starts : List ℕ) × (count : ℕ) × ActiveCard card.now starts count d) × Passes card.now × (offset / block_size + i < d.volume) }
    ensures { result ≡ counted_at card.now offset i }
{
    let l = (offset / BLOCK_SIZE + i) as u32;
    let slot = find::entry_of(card, d, Logical(l));
    let taken = need::need_of(d.alpha, Ok(slot));
    if i == 0 || l % TABLE_SIZE == 0 {
        taken
    } else {
        taken.min(1)
    }
}

// What the first `blocks` blocks of the span take.
pub fn span_need(card: &[u8], d: Descriptor, offset: usize, blocks: usize) -> usize
    requires { ((starts : List ℕ) × (count : ℕ) × ActiveCard card.now starts count d) × Passes card.now × (offset / block_size + blocks ≤ d.volume) }
    ensures value { result ≡ planned_need card.now offset blocks }
    ensures upper_bound { result ≤ 2 * blocks }
{
    (0..blocks)
        .map(|i| block_need(card, d, offset, i) as usize)
        .sum()
}
