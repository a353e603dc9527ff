// Blank pages: zeros for a logical block that has no block.
ghost use Rattle.std.specs.Prelude.{◌≡◌, ◌&&◌, eqb};
ghost use Rattle.blocks.specs.Pick.{all_zero};

use blocks::bytes;
use blocks::numbers::Physical;

// Whether these bytes are zeros, for an entry that names no block. Where it names one they are not looked at.
pub fn is_blank(p: Physical, page: &[u8]) -> bool
    ensures { result ≡ (eqb p.0 0 && all_zero page.now) }
{
    if p.0 != 0 {
        return false;
    }
    bytes::all_zero(page)
}
