// The flags that a check keeps, one for each block that may not be named any more. They are bytes: 255 for a block of an opening, and else the turn of the
// last descriptor that named the block. The turns rise, so that the flags are cleared only once the last turn is used up.
ghost use Rattle.std.specs.Prelude.{◌≡◌, ℕ, ◌+◌, ◌≤◌, ◌<◌, length, get_or};
ghost use Rattle.entries.specs.Marks.{takes, taking, flagged, openings_flagged, next_turn, next_flags};

use blocks::numbers::Physical;

// The flag of a block of an opening, which is also the last turn.
const OPENING: u8 = 255;

// Takes an entry of value `v`: says whether it is nil, or counted, below `limit` and not flagged in this turn. A set entry that is taken is flagged.
// Every entry that the check takes one by one is counted; `counted` stays, since the contract says what becomes of one that is not.
#[tactic(auto, using(std::proofs::lemmas::Bool::Decides::nat_tests), unfolding(entries::specs::Marks::takes, entries::specs::Marks::taking))]
pub fn take_entry(seen: &mut [u8], turn: u8, limit: Physical, counted: bool, v: Physical) -> bool
    requires { limit.0 ≤ length seen.old }
    ensures { (result ≡ takes seen.old turn limit.0 counted v.0) × (seen.new ≡ taking seen.old turn limit.0 counted v.0) }
{
    if v.is_nil() {
        return true;
    }
    let at = v.0 as usize;
    if !counted || limit <= v || turn <= seen[at] {
        return false;
    }
    seen[at] = turn;
    true
}

// Flags the `n` blocks from block `from` as those of an opening.
fn mark_blocks(seen: &mut [u8], from: Physical, n: usize)
    requires { from.0 + n ≤ length seen.old }
    ensures { seen.new ≡ flagged seen.old from.0 n }
{
    let first = from.0 as usize;
    seen[first..first + n].fill(OPENING);
}

// Flags the first `cost` blocks of each region, where `starts` has the block at which each of them starts.
pub fn mark_openings(seen: &mut [u8], starts: &[u32], cost: usize)
    requires { (k : ℕ) → k < length starts.now → get_or starts.now k 0 + cost ≤ length seen.old }
    ensures { seen.new ≡ openings_flagged seen.old starts.now cost (length starts.now) }
{
    for &from in starts {
        mark_blocks(seen, Physical(from), cost);
    }
}

// The turn after `turn`; once the last one is used up the flags are cleared, the openings flagged again, and the turns start again.
pub fn next_turn(seen: &mut [u8], starts: &[u32], cost: usize, turn: u8) -> u8
    requires { (k : ℕ) → k < length starts.now → get_or starts.now k 0 + cost ≤ length seen.old }
    ensures { (result ≡ next_turn turn) × (seen.new ≡ next_flags seen.old starts.now cost (length starts.now) turn) }
{
    if turn < OPENING {
        return turn + 1;
    }
    seen.fill(0);
    mark_openings(seen, starts, cost);
    1
}
