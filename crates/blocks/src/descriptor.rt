// A descriptor by value: the first 40 bytes of its block. Bytes 40 to 511 travel as they are.
ghost use Rattle.std.specs.Prelude.{◌≡◌, ◌+◌, ◌*◌, ◌≤◌, ◌<◌, ◌^◌, length};
ghost use Rattle.blocks.specs.Bytes.{block_size, splice, store_block};
ghost use Rattle.blocks.specs.Name.{name_size};
ghost use Rattle.blocks.specs.Descriptor.{head_size, table_count, cost, cost_of, renamed_of, linked_of, extended_of, reopened_of, descriptor_at, revision_at, head_bytes, tail_at, descriptor_block};

use crate::bytes;
use crate::numbers::Physical;
use crate::sizes::{HEAD_SIZE, NAME_SIZE, NAME_START, REVISION_START, TABLE_SIZE};

// What a format takes.
#[derive(Clone, Copy)]
pub struct Format {
    pub layout: u32,
    pub volume: u32,
    pub revision: u32,
    pub name: [u8; NAME_SIZE],
}

// The fields of a descriptor block, the paper's SDB.
#[derive(Clone, Copy)]
pub struct Descriptor {
    pub layout: u32,
    pub volume: u32,
    pub alpha: Physical,
    pub beta: Physical,
    pub next: Physical,
    pub name: [u8; NAME_SIZE],
}

// n, the table blocks of a volume.
#[tactic(auto, unfolding(crate::specs::Descriptor::table_count))]
pub fn table_count(volume: u32) -> u32
    ensures value { result ≡ table_count volume }
    ensures upper_bound { result ≤ 33554432 }
{
    volume.div_ceil(TABLE_SIZE)
}

// c, the blocks that opening a region takes.
#[tactic(auto, using(crate::proofs::Tests::tests), unfolding(crate::specs::Descriptor::cost))]
pub fn opening_cost(layout: u32, volume: u32) -> u32
    ensures { result ≡ cost layout volume }
{
    if layout == 1 {
        1 + table_count(volume)
    } else {
        1
    }
}

impl Descriptor {
    // c of the descriptor, the blocks that opening a region of its volume takes.
    pub fn cost(self) -> u32
        ensures { result ≡ cost_of self }
    {
        opening_cost(self.layout, self.volume)
    }

    // The descriptor under another name.
    pub fn renamed(self, name: [u8; NAME_SIZE]) -> Descriptor
        ensures { result ≡ renamed_of self name }
    {
        Descriptor { name, ..self }
    }

    // The descriptor with another next.
    pub fn linked(self, next: Physical) -> Descriptor
        ensures { result ≡ linked_of self next }
    {
        Descriptor { next, ..self }
    }

    // The descriptor with `k` more blocks in its region.
    pub fn extended(self, k: u32) -> Descriptor
        requires { self.beta.0 + k < 2 ^ 32 }
        ensures { result ≡ extended_of self k }
    {
        let beta = Physical(self.beta.0 + k);
        Descriptor { beta, ..self }
    }

    // The descriptor of a region that opens at this one's beta.
    pub fn reopened(self) -> Descriptor
        requires { self.beta.0 + cost_of self < 2 ^ 32 }
        ensures { result ≡ reopened_of self }
    {
        let beta = Physical(self.beta.0 + self.cost());
        Descriptor {
            alpha: self.beta,
            beta,
            ..self
        }
    }
}

// The sixteen bytes of the name in block `p`.
#[tactic(auto, unfolding(crate::specs::Descriptor::descriptor_at))]
pub fn name_at(card: &[u8], p: Physical) -> [u8; NAME_SIZE]
    requires { block_size * p.0 + block_size ≤ length card.now }
    ensures { result ≡ (descriptor_at card.now p.0).name }
{
    bytes::array_at(card, p.start() + NAME_START)
}

// The descriptor in block `p`. Each field has its place on a line of its own: a loop over places would be no plainer, here and in `put_head`.
#[tactic(auto, unfolding(crate::specs::Descriptor::descriptor_at))]
pub fn read_descriptor(card: &[u8], p: Physical) -> Descriptor
    requires { block_size * p.0 + block_size ≤ length card.now }
    ensures { result ≡ descriptor_at card.now p.0 }
{
    let start = p.start();
    Descriptor {
        layout: bytes::get_u32(card, start + 4),
        volume: bytes::get_u32(card, start + 8),
        alpha: Physical(bytes::get_u32(card, start + 12)),
        beta: Physical(bytes::get_u32(card, start + 16)),
        next: Physical(bytes::get_u32(card, start + 20)),
        name: name_at(card, p),
    }
}

// The revision of the descriptor in block `p`.
#[tactic(auto, unfolding(crate::specs::Descriptor::revision_at))]
pub fn revision_at(card: &[u8], p: Physical) -> u32
    requires { block_size * p.0 + block_size ≤ length card.now }
    ensures { result ≡ revision_at card.now p.0 }
{
    bytes::get_u32(card, p.start() + REVISION_START)
}

// Stores sixteen bytes at `at`.
pub fn put_name(block: &mut [u8], at: usize, name: [u8; NAME_SIZE])
    requires { at + name_size ≤ length block.old }
    ensures block_after { block.new ≡ splice block.old at name }
    ensures name_len { length name ≡ name_size }
{
    bytes::put_bytes(block, at, &name);
}

// The first 40 bytes of a block are now the mark and the descriptor.
pub fn put_head(block: &mut [u8], d: Descriptor)
    requires { head_size ≤ length block.old }
    ensures block_after { block.new ≡ splice block.old 0 (head_bytes d) }
    ensures d_len { length (head_bytes d) ≡ head_size }
{
    bytes::put_bytes(block, 0, b"snap");
    bytes::put_u32(block, 4, d.layout);
    bytes::put_u32(block, 8, d.volume);
    bytes::put_u32(block, 12, d.alpha.0);
    bytes::put_u32(block, 16, d.beta.0);
    bytes::put_u32(block, 20, d.next.0);
    put_name(block, NAME_START, d.name);
}

// The first 40 bytes of block `p` are now the mark and the descriptor.
pub fn put_descriptor(card: &mut [u8], p: Physical, d: Descriptor)
    requires { block_size * p.0 + block_size ≤ length card.old }
    ensures card_after { card.new ≡ store_block card.old p.0 (descriptor_block d (tail_at card.old p.0)) }
    ensures d_len { length (head_bytes d) ≡ head_size }
{
    let start = p.start();
    put_head(&mut card[start..start + HEAD_SIZE], d);
}
