// What is asked before the tests of any call.
ghost use Rattle.std.specs.Prelude.{◌≡◌};
ghost use Rattle.calls.specs.Parts.{area_bad};
ghost use Rattle.calls.specs.Call.{answered};
ghost use Rattle.calls.specs.Ladder.{first_row, admission};

use blocks::sizes::{BLOCK_SIZE, FEWEST_BLOCKS, MOST_BLOCKS};
use calls::answer::Refusal;

// Whether the area is no card, by its length alone.
fn is_bad(card: &[u8]) -> bool
    ensures { result ≡ area_bad card.now }
{
    if card.len() % BLOCK_SIZE != 0 {
        return true;
    }
    let n = card.len() / BLOCK_SIZE;
    if n < FEWEST_BLOCKS {
        return true;
    }
    MOST_BLOCKS < n
}

// What is asked before the tests of any call: that the area is a card.
pub fn admit(card: &[u8]) -> Result<(), Refusal>
    ensures { answered result ≡ first_row (admission card.now) }
{
    if is_bad(card) {
        return Err(Refusal::NoCard);
    }
    Ok(())
}
