// The blocks that a write takes, by the entry that was found alone, and by it with the region that contains what it names.
ghost use Rattle.std.specs.Prelude.{◌≡◌};
ghost use Rattle.blocks.specs.Pick.{pick};
ghost use Rattle.entries.specs.Found.{found_as, located_as};
ghost use Rattle.entries.specs.Entry.{table_is_new, need as needing, need_by};

use blocks::numbers::Physical;
use entries::find::{Misplaced, Slot};

// The blocks that a write through what was located takes, in the region that starts at `alpha` and is number `active` of the chain: none through an entry that is not
// in place.
pub fn need(active: usize, alpha: Physical, located: Result<(Slot, usize), Misplaced>) -> u32
    ensures { result ≡ need_by active alpha.0 (located_as located).found (located_as located).owner }
{
    match located {
        Err(_) => 0,
        Ok((slot, owner)) => {
            if slot.entry.0 != 0 && owner == active {
                return 0;
            }
            fresh_need(alpha, slot.table)
        }
    }
}

// The same by the entry that was found alone: none where that is set and at or above `alpha`.
pub fn need_of(alpha: Physical, found: Result<Slot, Misplaced>) -> u32
    ensures { result ≡ needing alpha.0 (found_as found) }
{
    match found {
        Err(_) => 0,
        Ok(slot) => {
            if slot.entry.0 != 0 && alpha.0 <= slot.entry.0 {
                return 0;
            }
            fresh_need(alpha, slot.table)
        }
    }
}

// The data block, and the table block where that is new.
fn fresh_need(alpha: Physical, m: Physical) -> u32
    ensures { result ≡ pick (table_is_new alpha.0 m.0) 2 1 }
{
    if m.0 == 0 || m.0 < alpha.0 { 2 } else { 1 }
}
