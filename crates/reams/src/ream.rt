// The format of a card.
ghost use Rattle.std.specs.Prelude.{◌≡◌, ◌+◌, ◌*◌, ◌≤◌, ◌<◌, length};
ghost use Rattle.blocks.specs.Bytes.{store_all, block_size};
ghost use Rattle.blocks.specs.Descriptor.{cost_in, clearing, opening};
ghost use Rattle.calls.specs.Call.{Ream, None, answered};
ghost use Rattle.calls.specs.Step.{step, done};

use admitting::area;
use blocks::descriptor::{Descriptor, Format};
use blocks::numbers::Physical;
use blocks::sizes::{BLOCK_SIZE, MOST_VOLUME, REVISION_START};
use blocks::{bytes, descriptor};
use calls::answer::Refusal;
use names::name;

// The `n` blocks from block `first` are zeros.
fn clear_blocks(card: &mut [u8], first: Physical, n: u32)
    requires { (block_size * (first.0 + n) ≤ length card.old) × (first.0 + n < 4294967296) }
    ensures { card.new ≡ store_all card.old (clearing first.0 n) }
{
    for i in 0..n {
        bytes::clear_block(card, Physical(first.0 + i));
    }
}

// Formats the card.
pub fn ream(card: &mut [u8], format: Format) -> Result<(), Refusal>
    ensures { done (answered result) None card.new ≡ step (Ream format) card.old }
{
    area::admit(card)?;
    if format.layout == 0 || 2 < format.layout {
        return Err(Refusal::BadLayout);
    }
    if format.volume == 0 || MOST_VOLUME < format.volume {
        return Err(Refusal::BadVolume);
    }
    if 1 < format.revision {
        return Err(Refusal::BadRevision);
    }
    if !name::is_name(format.name) {
        return Err(Refusal::BadName);
    }
    let cost = descriptor::opening_cost(format.layout, format.volume);
    if card.len() / BLOCK_SIZE < cost as usize {
        return Err(Refusal::CardTooSmall);
    }
    open_card(card, format, cost);
    Ok(())
}

// Clears the blocks of the opening in one run, then stores the first descriptor and the revision after it.
fn open_card(card: &mut [u8], format: Format, cost: u32)
    requires { (cost ≡ cost_in format) × (block_size * cost ≤ length card.old) }
    ensures { card.new ≡ store_all card.old (opening format) }
{
    let name = format.name;
    let first = Descriptor {
        layout: format.layout,
        volume: format.volume,
        alpha: Physical(0),
        beta: Physical(cost),
        next: Physical(0),
        name,
    };
    clear_blocks(card, Physical(0), cost);
    descriptor::put_descriptor(card, Physical(0), first);
    bytes::put_u32(card, REVISION_START, format.revision);
}
