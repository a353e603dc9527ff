// Copies within a card. The loops store each byte once, rising; that no byte is stored twice is read from them, since a contract speaks of the end alone.
ghost use Rattle.std.specs.Prelude.{◌≡◌, ◌+◌, ◌*◌, ◌-◌, ◌≤◌, ◌<◌, length};
ghost use Rattle.blocks.specs.Bytes.{block_size, part, splice, block_at, store_block, store_all, store_upto};
ghost use Rattle.blocks.specs.Descriptor.{phi_start, copying, descriptor_block, tail_at};

use blocks::descriptor;
use blocks::descriptor::Descriptor;
use blocks::numbers::Physical;
use blocks::sizes::{BLOCK_SIZE, HEAD_SIZE, PHI_START};

// The bytes of block `to` from `start` up to `end` are now those of block `from`.
fn copy_part(card: &mut [u8], from: Physical, to: Physical, start: usize, end: usize)
    requires { (start ≤ end) × (end ≤ block_size) × (block_size * from.0 + block_size ≤ length card.old) × (block_size * «to».0 + block_size ≤ length card.old) }
    ensures { card.new ≡ splice card.old (block_size * «to».0 + start) (part card.old (block_size * from.0 + start) (end - start)) }
{
    let a = from.start();
    let b = to.start();
    for i in start..end {
        card[b + i] = card[a + i];
    }
}

// Block `to` is now a copy of block `from`.
#[tactic(auto, using(crate::proofs::CopyLaws::block_copied))]
pub fn copy_block(card: &mut [u8], from: Physical, to: Physical)
    requires { (block_size * from.0 + block_size ≤ length card.old) × (block_size * «to».0 + block_size ≤ length card.old) }
    ensures { card.new ≡ store_block card.old «to».0 (block_at card.old from.0) }
{
    copy_part(card, from, to, 0, BLOCK_SIZE);
}

// The `n` blocks from block `to` are copies of those from block `from`, which stand before them.
#[tactic(auto, using(crate::proofs::CopyLaws::copies_none, crate::proofs::CopyLaws::copies_more, crate::proofs::CopyLaws::copies_all))]
pub fn copy_blocks(card: &mut [u8], from: Physical, to: Physical, n: u32)
    requires { (from.0 + n ≤ «to».0) × (block_size * («to».0 + n) ≤ length card.old) × («to».0 + n < 4294967296) }
    ensures { card.new ≡ store_all card.old (copying card.old from.0 «to».0 n) }
{
    for i in 0..n {
        copy_block(card, Physical(from.0 + i), Physical(to.0 + i));
    }
}

// The bytes of block `to` from `start` up to `end`, those before Phi first: the others then start at a multiple of 64 and are copied faster.
fn copy_rest(card: &mut [u8], from: Physical, to: Physical, start: usize, end: usize)
    requires { (start ≤ end) × (start ≤ phi_start) × (end ≤ block_size) × (block_size * from.0 + block_size ≤ length card.old) × (block_size * «to».0 + block_size ≤ length card.old) }
    ensures { card.new ≡ splice card.old (block_size * «to».0 + start) (part card.old (block_size * from.0 + start) (end - start)) }
{
    let phi = end.min(PHI_START);
    copy_part(card, from, to, start, phi);
    copy_part(card, from, to, phi, end);
}

// The pass that makes the block of a new descriptor, stopped after `k` bytes: the first `k` bytes of block `to` are now those of the descriptor's block,
// which has bytes 40 to 511 of block `from`, and every other byte of the card is as it was.
#[tactic(auto, using(blocks::proofs::ByteLaws::copied_none, blocks::proofs::ByteLaws::copied_more))]
pub fn store_descriptor_upto(card: &mut [u8], from: Physical, to: Physical, d: Descriptor, k: usize)
    requires { (k ≤ block_size) × (block_size * from.0 + block_size ≤ length card.old) × (block_size * «to».0 + block_size ≤ length card.old) }
    ensures { card.new ≡ store_upto card.old «to».0 (descriptor_block d (tail_at card.old from.0)) k }
{
    let mut head = [0; HEAD_SIZE];
    descriptor::put_head(&mut head, d);
    let split = k.min(HEAD_SIZE);
    let b = to.start();
    for i in 0..split {
        card[b + i] = head[i];
    }
    copy_rest(card, from, to, split, k);
}
