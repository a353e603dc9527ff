// A region opened at a descriptor's beta.
ghost use Rattle.std.specs.Prelude.{◌≡◌, [], ◌+◌, ◌*◌, ◌≤◌, ◌<◌, length};
ghost use Rattle.blocks.specs.Bytes.{block_size, store_all};
ghost use Rattle.blocks.specs.Descriptor.{cost_of, reopening};

use blocks::descriptor::Descriptor;
use blocks::numbers::Physical;
use blocks::sizes::BLOCK_SIZE;
use copying::copy;

// Opens a region at the descriptor's beta: its tables first and rising, then its descriptor.
pub fn open_region(card: &mut [u8], d: Descriptor, cost: u32)
    requires { (cost ≡ cost_of d) × (d.alpha.0 + cost ≤ d.beta.0) × (block_size * (d.beta.0 + cost) ≤ length card.old) × (d.beta.0 + cost < 4294967296) × (1 ≤ cost) }
    ensures { card.new ≡ store_all card.old (reopening card.old d []) }
{
    let from = Physical(d.alpha.0 + 1);
    let to = Physical(d.beta.0 + 1);
    copy::copy_blocks(card, from, to, cost - 1);
    copy::store_descriptor_upto(card, d.alpha, d.beta, d.reopened(), BLOCK_SIZE);
}
