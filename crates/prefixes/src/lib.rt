// A library for the tests alone: the pass that makes the block of a new descriptor, stopped after any number of bytes.
#![tactic(auto)]

ghost use Rattle.std.specs.Prelude.{◌≡◌};
ghost use Rattle.prefixes.specs.Prefix.{prefix_of};

use blocks::descriptor;
use blocks::numbers::Physical;
use blocks::sizes::BLOCK_SIZE;
use copying::copy;

// Makes block `to` as the pass does, stopped after `k` bytes: the descriptor is that in the block `head`, bytes 40 to 511 come from block `from`. It gives 1;
// 0, and nothing is stored, where `head` is no block, `k` is above 512, or a block is not on the card.
#[unsafe(no_mangle)]
#[tactic(auto, using(std::proofs::lemmas::Bool::Decides::nat_tests), unfolding(crate::specs::Prefix::prefix_of, blocks::specs::Bytes::block_count))]
pub extern "C" fn store_prefix(card: &mut [u8], from: u32, to: u32, head: &[u8], k: u32) -> u32
    ensures { record { number = result; card = card.new } ≡ prefix_of card.old from «to» head.now k }
{
    let k = k as usize;
    let n = card.len() / BLOCK_SIZE;
    if head.len() != BLOCK_SIZE || BLOCK_SIZE < k || n <= from as usize || n <= to as usize {
        return 0;
    }
    let d = descriptor::read_descriptor(head, Physical(0));
    copy::store_descriptor_upto(card, Physical(from), Physical(to), d, k);
    1
}
