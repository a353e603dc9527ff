// Blocks of the card as a change leaves them, each made in a local array, for a store of the whole block.
ghost use Rattle.std.specs.Prelude.{◌≡◌, ◌+◌, ◌*◌, ◌≤◌, ◌<◌, length, eqb};
ghost use Rattle.blocks.specs.Pick.{pick};
ghost use Rattle.blocks.specs.Bytes.{zero_block, block_at, block_size};
ghost use Rattle.blocks.specs.Descriptor.{head_bytes, tail_at, descriptor_block, table_size, phi_size};
ghost use Rattle.entries.specs.Entry.{table_with, tail_with};

use blocks::descriptor::Descriptor;
use blocks::numbers::Physical;
use blocks::sizes::{BLOCK_SIZE, PHI_START};
use blocks::{bytes, descriptor};

// Block `p` with the mark and the descriptor in its first 40 bytes.
pub fn descriptor_block(card: &[u8], p: Physical, d: Descriptor) -> [u8; BLOCK_SIZE]
    requires { block_size * p.0 + block_size ≤ length card.now }
    ensures value { result ≡ descriptor_block d (tail_at card.now p.0) }
    ensures d_len { length (head_bytes d) ≡ 40 }
{
    let mut b: [u8; BLOCK_SIZE] = bytes::array_at(card, p.start());
    descriptor::put_head(&mut b, d);
    b
}

// The same with entry `i` of Phi set to `m`.
pub fn descriptor_block_with(
    card: &[u8],
    p: Physical,
    d: Descriptor,
    i: u32,
    m: Physical,
) -> [u8; BLOCK_SIZE]
    requires { (block_size * p.0 + block_size ≤ length card.now) × (i < phi_size) }
    ensures { result ≡ descriptor_block d (tail_with (tail_at card.now p.0) i m.0) }
{
    let mut b = descriptor_block(card, p, d);
    bytes::put_u32(&mut b, PHI_START + 4 * (i as usize), m.0);
    b
}

// A table block with entry `j` set to `q`: all others nil, or those of block `m`.
pub fn table_block(card: &[u8], m: Physical, j: u32, q: Physical) -> [u8; BLOCK_SIZE]
    requires { (block_size * m.0 + block_size ≤ length card.now) × (j < table_size) }
    ensures { result ≡ table_with (pick (eqb m.0 0) zero_block (block_at card.now m.0)) j q.0 }
{
    let mut b: [u8; BLOCK_SIZE] = if m.is_nil() {
        [0; BLOCK_SIZE]
    } else {
        bytes::array_at(card, m.start())
    };
    bytes::put_u32(&mut b, 4 * (j as usize), q.0);
    b
}
