// A write of one block through an entry that was found, once there is room.
ghost use Rattle.std.specs.Prelude.{◌≡◌, ◌+◌, ◌/◌, ◌≤◌, length};
ghost use Rattle.blocks.specs.Bytes.{store_all, block_size};
ghost use Rattle.entries.specs.Through.{WriteReady};
ghost use Rattle.entries.specs.Entry.{need, writing};
ghost use Rattle.entries.specs.Found.{entry_in};

use crate::set;
use blocks::bytes;
use blocks::descriptor::Descriptor;
use blocks::numbers::{Logical, Physical};
use entries::find::Slot;

// Stores the block through the slot: over the block that it names, or into the blocks taken at beta.
pub fn put_block(card: &mut [u8], d: Descriptor, slot: Slot, l: Logical, taken: u32, block: &[u8])
    requires { WriteReady card.old d slot.table.0 slot.entry.0 l.0 block.now × (taken ≡ need d.alpha.0 (entry_in slot)) × (d.beta.0 + taken ≤ length card.old / block_size) }
    ensures { card.new ≡ store_all card.old (writing card.old d (entry_in slot) l.0 block.now) }
{
    match taken {
        0 => bytes::store_block(card, slot.entry, block),
        2 => {
            bytes::store_block(card, Physical(d.beta.0 + 1), block);
            set::set_in_new_table(card, d, slot.table, l);
        }
        _ => {
            bytes::store_block(card, d.beta, block);
            set::set_in_table(card, d, slot.table, l);
        }
    }
}
