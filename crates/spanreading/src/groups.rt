// Groups of 128 logical blocks, those of one table block: whether their entries are in place. The table block is looked for once in a group.
ghost use Rattle.std.specs.Prelude.{◌≡◌, ◌+◌, ◌*◌, ◌-◌, ◌%◌, ◌≤◌, ◌<◌, length};
ghost use Rattle.blocks.specs.Pick.{pick};
ghost use Rattle.blocks.specs.Bytes.{block_size};
ghost use Rattle.blocks.specs.Descriptor.{table_size};
ghost use Rattle.entries.specs.Through.{Through};
ghost use Rattle.entries.specs.Found.{Passed, Fault, verdict_as};
ghost use Rattle.calls.specs.Spans.{misplaced_from};
ghost use Rattle.spanreading.specs.Fetched.{placed_from};

use blocks::descriptor::Descriptor;
use blocks::numbers::{Logical, Physical};
use blocks::sizes::TABLE_SIZE;
use calls::chain::Chain;
use entries::find::Misplaced;
use finding::find;

// Whether `k` entries of table block `m` from entry `j` on are in place.
fn entries_in_place(
    chain: Chain,
    d: Descriptor,
    m: Physical,
    j: u32,
    k: u32,
) -> Result<(), Misplaced>
    requires { Through chain.card.now chain.starts.now (length chain.starts.now - 1) d × (block_size * m.0 + block_size ≤ length chain.card.now) × (j + k ≤ table_size) }
    ensures { verdict_as result ≡ pick (placed_from chain.entry.card.now d m.0 j k) Passed (Fault m) }
{
    for i in 0..k {
        find::locate_in(chain, d, m, j + i)?;
    }
    Ok(())
}

// Whether the entries of `k` logical blocks of one group, from `l` on, are in place. The table block of the first serves the others, and where there is none they are
// nil as it is.
fn group_in_place(chain: Chain, d: Descriptor, l: u32, k: u32) -> Result<(), Misplaced>
    requires { Through chain.card.now chain.starts.now (length chain.starts.now - 1) d × (0 < k) × (l % table_size + k ≤ table_size) × (l + k ≤ d.volume) }
    ensures { verdict_as result ≡ misplaced_from chain.entry.card.now d l k }
{
    let (slot, _) = find::locate(chain, d, Logical(l))?;
    if slot.table.is_nil() {
        return Ok(());
    }
    entries_in_place(chain, d, slot.table, l % TABLE_SIZE + 1, k - 1)
}

// Whether the entries of the logical blocks from `first` up to `end` are in place, group by group.
pub fn blocks_in_place(chain: Chain, d: Descriptor, first: u32, end: u32) -> Result<(), Misplaced>
    requires { Through chain.card.now chain.starts.now (length chain.starts.now - 1) d × (first ≤ end) × (end ≤ d.volume) }
    ensures { verdict_as result ≡ misplaced_from chain.entry.card.now d first (end - first) }
{
    let mut l = first;
    // no `for`: a turn takes as many blocks as are left of the group
    while l < end {
        let k = (TABLE_SIZE - l % TABLE_SIZE).min(end - l);
        group_in_place(chain, d, l, k)?;
        l += k;
    }
    Ok(())
}
