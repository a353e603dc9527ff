// Bytes, 32-bit numbers and whole blocks of a lent area.
ghost use Rattle.std.specs.Prelude.{◌≡◌, ◌+◌, ◌*◌, ◌≤◌, length};
ghost use Rattle.blocks.specs.Pick.{same, all_zero};
ghost use Rattle.blocks.specs.Bytes.{block_size, u32_at, u64_at, le32, splice, part, zero_block, store_block};

use crate::numbers::Physical;
use crate::sizes::BLOCK_SIZE;

// The `N` bytes from `at` on, by value.
pub fn array_at<const N: usize>(area: &[u8], at: usize) -> [u8; N]
    requires { at + N ≤ length area.now }
    ensures { result ≡ part area.now at N }
{
    let mut bytes = [0; N];
    bytes.copy_from_slice(&area[at..at + N]);
    bytes
}

// The number of 32 bits at `at`, lowest byte first.
#[tactic(auto, unfolding(crate::specs::Bytes::u32_at))]
pub fn get_u32(area: &[u8], at: usize) -> u32
    requires { at + 4 ≤ length area.now }
    ensures { result ≡ u32_at area.now at }
{
    u32::from_le_bytes([area[at], area[at + 1], area[at + 2], area[at + 3]])
}

// The two numbers of 32 bits at `at` and after it, as one.
#[tactic(auto, using(crate::proofs::ByteLaws::u64_read))]
pub fn get_u64(area: &[u8], at: usize) -> u64
    requires { at + 8 ≤ length area.now }
    ensures { result ≡ u64_at area.now at }
{
    u64::from_le_bytes(array_at(area, at))
}

// Copies all of `from` into `area` from index `at`. With `copy_from_slice` for the loop the compiled code made the head of a new descriptor on the stack first:
// opening a region in layout 2 took 26 ns, and takes 20.
#[tactic(auto, using(crate::proofs::ByteLaws::copied_none, crate::proofs::ByteLaws::copied_more, crate::proofs::ByteLaws::copied_all))]
pub fn put_bytes(area: &mut [u8], at: usize, from: &[u8])
    requires { at + length from.now ≤ length area.old }
    ensures { area.new ≡ splice area.old at from.now }
{
    for (i, b) in from.iter().enumerate() {
        area[at + i] = *b;
    }
}

// Stores `v` at `at`, lowest byte first.
#[tactic(auto, unfolding(crate::specs::Bytes::le32))]
pub fn put_u32(area: &mut [u8], at: usize, v: u32)
    requires { at + 4 ≤ length area.old }
    ensures { area.new ≡ splice area.old at (le32 v) }
{
    put_bytes(area, at, &v.to_le_bytes());
}

// Copies the part of `area` from `at` that is as long as `out` to `out`.
pub fn get_bytes(area: &[u8], at: usize, out: &mut [u8])
    requires { at + length out.old ≤ length area.now }
    ensures { out.new ≡ part area.now at (length out.old) }
{
    out.copy_from_slice(&area[at..at + out.len()]);
}

// Copies a block into `area` from index `at`, by way of a copy of its own: the compiler then knows that what it reads and what it stores are apart, and makes one
// move of both.
pub fn put_whole(area: &mut [u8], at: usize, block: &[u8])
    requires { (length block.now ≡ block_size) × (at + block_size ≤ length area.old) }
    ensures { area.new ≡ splice area.old at block.now }
{
    let copy: [u8; BLOCK_SIZE] = array_at(block, 0);
    put_bytes(area, at, &copy);
}

// Block `p` is now `block`.
#[tactic(auto, unfolding(crate::specs::Bytes::store_block))]
pub fn store_block(card: &mut [u8], p: Physical, block: &[u8])
    requires { (length block.now ≡ block_size) × (block_size * p.0 + block_size ≤ length card.old) }
    ensures { card.new ≡ store_block card.old p.0 block.now }
{
    put_whole(card, p.start(), block);
}

// Block `p` is now zeros.
pub fn clear_block(card: &mut [u8], p: Physical)
    requires { block_size * p.0 + block_size ≤ length card.old }
    ensures { card.new ≡ store_block card.old p.0 zero_block }
{
    let start = p.start();
    card[start..start + BLOCK_SIZE].fill(0);
}

// Whether two lists of bytes are the same.
#[tactic(auto, using(crate::proofs::ListLaws::bytes_same))]
pub fn same_bytes(a: &[u8], b: &[u8]) -> bool
    ensures { result ≡ same a.now b.now }
{
    a == b
}

// Whether all bytes are zero, eight at a time and then one by one. It looks at every byte, so that the compiler can take more at a time.
pub fn all_zero(a: &[u8]) -> bool
    ensures { result ≡ all_zero a.now }
{
    let (words, rest) = a.as_chunks();
    let words_zero = words
        .iter()
        .fold(true, |zero, word| zero & (u64::from_le_bytes(*word) == 0));
    let rest_zero = rest.iter().fold(true, |zero, b| zero & (*b == 0));
    words_zero & rest_zero
}
