// What is looked up in a chain by where its regions start: a name's index, and the next of a region.
ghost use Rattle.std.specs.Prelude.{◌≡◌, ℕ, ◌+◌, ◌*◌, ◌≤◌, ◌<◌, length, get_or, eqb, IfSome, unwrap_or};
ghost use Rattle.blocks.specs.Pick.{pick, same};
ghost use Rattle.blocks.specs.Bytes.{block_size};
ghost use Rattle.blocks.specs.Descriptor.{physical, descriptor_at};
ghost use Rattle.chains.specs.Chain.{index_of, named, descriptors_at};

use blocks::bytes;
use blocks::numbers::Physical;
use blocks::sizes::{NAME_SIZE, NAME_START};

// Whether the descriptor in block `p` has the name: names that differ do so in one of two 64-bit words.
#[tactic(auto, using(blocks::proofs::DescriptorLaws::words_apart), unfolding(blocks::specs::Descriptor::descriptor_at))]
fn has_name(card: &[u8], p: Physical, name: [u8; NAME_SIZE]) -> bool
    requires { block_size * p.0 + block_size ≤ length card.now }
    ensures { result ≡ same (descriptor_at card.now p.0).name name }
{
    let at = p.start() + NAME_START;
    bytes::get_u64(card, at) == bytes::get_u64(&name, 0)
        && bytes::get_u64(card, at + 8) == bytes::get_u64(&name, 8)
        && bytes::same_bytes(&card[at..at + NAME_SIZE], &name)
}

// The index of the first of the descriptors in the blocks of `starts` that has the name.
pub fn index_of(card: &[u8], starts: &[u32], name: [u8; NAME_SIZE]) -> Option<usize>
    requires { (j : ℕ) → j < length starts.now → block_size * get_or starts.now j 0 + block_size ≤ length card.now }
    ensures value { unwrap_or result (length starts.now) ≡ index_of (descriptors_at card.now starts.now) name }
    ensures upper_bound { IfSome result (λ j. j < length starts.now) }
{
    starts
        .iter()
        .position(|p| has_name(card, Physical(*p), name))
}

// Whether one of the descriptors in the blocks of `starts` has the name.
#[tactic(auto, using(chains::proofs::NamedLaws::named_found))]
pub fn is_named(card: &[u8], starts: &[u32], name: [u8; NAME_SIZE]) -> bool
    requires { (j : ℕ) → j < length starts.now → block_size * get_or starts.now j 0 + block_size ≤ length card.now }
    ensures { result ≡ named (descriptors_at card.now starts.now) name }
{
    index_of(card, starts, name).is_some()
}

// The next of region `k` of `count`, which ends at block `end`.
pub fn next_of(end: Physical, k: usize, count: usize) -> Physical
    requires { k < count }
    ensures { result ≡ physical (pick (eqb (k + 1) count) 0 end.0) }
{
    if k + 1 == count { Physical(0) } else { end }
}
