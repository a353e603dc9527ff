// Finding the entry of a logical block through a descriptor, and the region that contains the block that it names.
ghost use Rattle.std.specs.Prelude.{◌≡◌, List, ℕ, ◌+◌, ◌*◌, ◌-◌, ◌≤◌, ◌<◌, ◌^◌, length};
ghost use Rattle.blocks.specs.Bytes.{block_size};
ghost use Rattle.blocks.specs.Descriptor.{table_size, phi_size, physical};
ghost use Rattle.chains.specs.Chain.{chain as chain_of, descriptors};
ghost use Rattle.entries.specs.Through.{Through};
ghost use Rattle.entries.specs.Found.{Entry, entry_in, located_as};
ghost use Rattle.entries.specs.Entry.{table_of, entry_at, entry_found, find as finding, located_in, locate as locating};

use blocks::bytes;
use blocks::descriptor::Descriptor;
use blocks::numbers::{Logical, Physical};
use blocks::sizes::{PHI_START, TABLE_SIZE};
use calls::chain::Chain;
use entries::find::{Misplaced, Slot};
use owning::place;

// The table block of group `i` of 128 logical blocks: the i-th after the descriptor in layout 1, as Phi names it in layout 2.
pub fn table_of(card: &[u8], d: Descriptor, i: u32) -> Physical
    requires { (block_size * d.alpha.0 + block_size ≤ length card.now) × (i < phi_size) × (d.alpha.0 + (phi_size + 1) < 2 ^ 32) }
    ensures { result ≡ physical (table_of card.now d i) }
{
    if d.layout == 1 {
        return Physical(d.alpha.0 + 1 + i);
    }
    let at = d.alpha.start() + PHI_START + 4 * (i as usize);
    Physical(bytes::get_u32(card, at))
}

// Entry `j` of table block `m`.
pub fn entry_at(card: &[u8], m: Physical, j: u32) -> Physical
    requires { (block_size * m.0 + block_size ≤ length card.now) × (j < table_size) }
    ensures { result ≡ physical (entry_at card.now m.0 j) }
{
    let at = m.start() + 4 * (j as usize);
    Physical(bytes::get_u32(card, at))
}

// The entry of logical block `l` through the descriptor `d`, where it is in place: the table block and the entry are read, and no region is looked for.
pub fn entry_of(card: &[u8], d: Descriptor, l: Logical) -> Slot
    requires { ((starts : List ℕ) × (count : ℕ) × Through card.now starts count d) × (l.0 < d.volume) × ((m : Physical) × (p : Physical) × (finding card.now (descriptors (chain_of card.now)) d l.0 ≡ Entry m p)) }
    ensures { entry_in result ≡ finding card.now (descriptors (chain_of card.now)) d l.0 }
{
    let table = table_of(card, d, l.0 / TABLE_SIZE);
    let entry = if table.is_nil() {
        Physical(0)
    } else {
        entry_at(card, table, l.0 % TABLE_SIZE)
    };
    Slot { table, entry }
}

// Entry `j` of table block `m`, if it is in place, and the region that contains what it names.
pub fn locate_in(
    chain: Chain,
    d: Descriptor,
    m: Physical,
    j: u32,
) -> Result<(Slot, usize), Misplaced>
    requires { Through chain.card.now chain.starts.now (length chain.starts.now - 1) d × (block_size * m.0 + block_size ≤ length chain.card.now) × (j < table_size) }
    ensures { located_as result ≡ located_in (descriptors (chain_of chain.entry.card.now)) (entry_found (descriptors (chain_of chain.entry.card.now)) d m.0 (entry_at chain.entry.card.now m.0 j)) }
{
    let entry = entry_at(chain.card, m, j);
    let owner = place::owner_at(chain.starts, d, entry).ok_or(Misplaced(m))?;
    Ok((Slot { table: m, entry }, owner))
}

// The entry of logical block `l` through the descriptor `d` and, beside it, the region that contains the block that it names.
pub fn locate(chain: Chain, d: Descriptor, l: Logical) -> Result<(Slot, usize), Misplaced>
    requires { Through chain.card.now chain.starts.now (length chain.starts.now - 1) d × (l.0 < d.volume) }
    ensures { located_as result ≡ locating chain.entry.card.now (descriptors (chain_of chain.entry.card.now)) d l.0 }
{
    let j = l.0 % TABLE_SIZE;
    let m = table_of(chain.card, d, l.0 / TABLE_SIZE);
    if d.layout == 1 {
        return locate_in(chain, d, m, j);
    }
    place::owner_at(chain.starts, d, m).ok_or(Misplaced(d.alpha))?;
    if m.is_nil() {
        let none = Slot {
            table: Physical(0),
            entry: Physical(0),
        };
        return Ok((none, 0));
    }
    locate_in(chain, d, m, j)
}
