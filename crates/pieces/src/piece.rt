// The blocks that a span of bytes touches, and its piece in each of them.
ghost use Rattle.std.specs.Prelude.{◌≡◌, ◌+◌, ◌*◌, ◌-◌, ◌/◌, ◌≤◌, ◌<◌, ◌^◌, min, ltb};
ghost use Rattle.blocks.specs.Bytes.{block_size};
ghost use Rattle.pieces.specs.Span.{touched, piece_of};

use blocks::sizes::BLOCK_SIZE;

// The piece of a span in one block: its first byte in the block, where it stands among the span's bytes, and how many bytes it has.
#[derive(Clone, Copy)]
pub struct Piece {
    pub first: usize,
    pub stands: usize,
    pub count: usize,
}

// The piece in logical block `l` of the span of `n` bytes from `offset` on.
pub fn piece_in(offset: usize, n: usize, l: usize) -> Piece
    requires { (block_size * l < offset + n) × (offset < block_size * l + block_size) × (offset + n < 2 ^ 64) }
    ensures value { result ≡ piece_of offset n l }
    ensures count_bound { (result.first + result.count ≤ block_size) × (result.stands + result.count ≤ n) }
{
    let start = BLOCK_SIZE * l;
    let first = offset.saturating_sub(start);
    let stands = start.saturating_sub(offset);
    let count = (BLOCK_SIZE - first).min(n - stands);
    Piece {
        first,
        stands,
        count,
    }
}

// How many blocks the span of `n` bytes from `offset` on touches.
#[tactic(auto, using(crate::proofs::SpanLaws::touched_none, crate::proofs::SpanLaws::touched_some))]
pub fn blocks_touched(offset: usize, n: usize) -> usize
    requires { offset + n < 2 ^ 64 }
    ensures value { result ≡ touched offset n }
    ensures result_bound { block_size * (offset / block_size + result) < offset + n + block_size }
{
    if n == 0 {
        0
    } else {
        let last = offset + (n - 1);
        last / BLOCK_SIZE - offset / BLOCK_SIZE + 1
    }
}

// Whether the span of `n` bytes from `offset` on ends past a volume of so many blocks: over all numbers, with no sum that could be too large.
pub fn is_past(volume: u32, offset: u64, n: usize) -> bool
    ensures { result ≡ ltb (block_size * volume) (offset + n) }
{
    let end = BLOCK_SIZE as u64 * u64::from(volume);
    end < offset || end - offset < n as u64
}
