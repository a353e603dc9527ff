// Setting an entry: the stores of a write but for that of its data, each in place. What is stored is that of the card at entry.
ghost use Rattle.std.specs.Prelude.{◌≡◌, ◌+◌, ◌*◌, ◌≤◌, ◌<◌, ◌^◌, length, eqb};
ghost use Rattle.blocks.specs.Pick.{pick};
ghost use Rattle.blocks.specs.Bytes.{zero_block, block_at, store_block, store_all, block_size};
ghost use Rattle.blocks.specs.Descriptor.{head_bytes, tail_at, descriptor_block, table_size, most_volume, phi_size};
ghost use Rattle.entries.specs.Entry.{table_with, tail_with, set_in_table, set_in_new_table};

use blocks::descriptor::Descriptor;
use blocks::numbers::{Logical, Physical};
use blocks::sizes::{PHI_START, TABLE_SIZE};
use blocks::{bytes, descriptor};
use copying::copy;

// Entry `j` of table block `m` is now `q`.
fn put_entry(card: &mut [u8], m: Physical, j: u32, q: Physical)
    requires { (block_size * m.0 + block_size ≤ length card.old) × (j < table_size) }
    ensures { card.new ≡ store_block card.old m.0 (table_with (block_at card.old m.0) j q.0) }
{
    bytes::put_u32(card, m.start() + 4 * (j as usize), q.0);
}

// Block `p` is now a new table block with entry `j` set to `q`: all others nil, or those of block `m`.
fn put_new_table(card: &mut [u8], p: Physical, m: Physical, j: u32, q: Physical)
    requires { (block_size * p.0 + block_size ≤ length card.old) × (block_size * m.0 + block_size ≤ length card.old) × (j < table_size) }
    ensures { card.new ≡ store_block card.old p.0 (table_with (pick (eqb m.0 0) zero_block (block_at card.old m.0)) j q.0) }
{
    if m.is_nil() {
        bytes::clear_block(card, p);
    } else {
        copy::copy_block(card, m, p);
    }
    put_entry(card, p, j, q);
}

// The first 40 bytes of block `p` are now those of the descriptor `d`, and entry `i` of Phi is `m`.
fn put_with_table(card: &mut [u8], p: Physical, d: Descriptor, i: u32, m: Physical)
    requires { (block_size * p.0 + block_size ≤ length card.old) × (i < phi_size) }
    ensures card_after { card.new ≡ store_block card.old p.0 (descriptor_block d (tail_with (tail_at card.old p.0) i m.0)) }
    ensures d_len { length (head_bytes d) ≡ 40 }
{
    descriptor::put_descriptor(card, p, d);
    bytes::put_u32(card, p.start() + (PHI_START + 4 * (i as usize)), m.0);
}

// The entry of logical block `l` now names the block at beta, in table block `m` of the active region: descriptor, then table.
pub fn set_in_table(card: &mut [u8], d: Descriptor, m: Physical, l: Logical)
    requires { (block_size * d.alpha.0 + block_size ≤ length card.old) × (block_size * m.0 + block_size ≤ length card.old) × (d.beta.0 + 1 < 2 ^ 32) }
    ensures { card.new ≡ store_all card.old (set_in_table card.old d m.0 l.0) }
{
    // Of two stores of one block the second stays.
    if m != d.alpha {
        descriptor::put_descriptor(card, d.alpha, d.extended(1));
    }
    put_entry(card, m, l.0 % TABLE_SIZE, d.beta);
}

// The entry of logical block `l` now names the block after beta, in a new table block at beta: table, then descriptor.
pub fn set_in_new_table(card: &mut [u8], d: Descriptor, m: Physical, l: Logical)
    requires { (block_size * d.alpha.0 + block_size ≤ length card.old) × (block_size * m.0 + block_size ≤ length card.old) × (block_size * d.beta.0 + block_size ≤ length card.old) × (d.beta.0 + 2 < 2 ^ 32) × (l.0 < most_volume) }
    ensures { card.new ≡ store_all card.old (set_in_new_table card.old d m.0 l.0) }
{
    // Of two stores of one block the second stays.
    if d.beta != d.alpha {
        put_new_table(card, d.beta, m, l.0 % TABLE_SIZE, Physical(d.beta.0 + 1));
    }
    put_with_table(card, d.alpha, d.extended(2), l.0 / TABLE_SIZE, d.beta);
}
