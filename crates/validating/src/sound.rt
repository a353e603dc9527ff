// Whether a descriptor is sound, but for its name among those before it.
ghost use Rattle.std.specs.Prelude.{◌≡◌, true, ◌&&◌, ◌+◌, ◌*◌, ◌≤◌, length};
ghost use Rattle.blocks.specs.Pick.{same};
ghost use Rattle.blocks.specs.Bytes.{block_size, part};
ghost use Rattle.blocks.specs.Name.{is_name};
ghost use Rattle.blocks.specs.Descriptor.{mark, descriptor_at, reserved_size, reserved_ok};
ghost use Rattle.chains.specs.Chain.{form_ok, region_ok};
ghost use Rattle.validating.specs.Range.{in_range};

use blocks::descriptor::Descriptor;
use blocks::numbers::Physical;
use blocks::sizes::{BLOCK_SIZE, HEAD_SIZE, MOST_VOLUME, NAME_START, PHI_START};
use blocks::{bytes, descriptor};
use names::name;

// Whether block `p` begins with the mark.
#[tactic(auto, using(blocks::proofs::ListLaws::bytes_same))]
fn has_mark(card: &[u8], p: Physical) -> bool
    requires { block_size * p.0 + block_size ≤ length card.now }
    ensures { result ≡ same (part card.now (block_size * p.0) 4) mark }
{
    bytes::array_at(card, p.start()) == *b"snap"
}

// Whether bytes 40 to 63 of a descriptor block are as they must be, on a card of the revision. The first eight are one number: the revision, then zeros.
#[tactic(auto, using(links::proofs::SoundLaws::reserved_tests))]
fn is_reserved(reserved: &[u8], revision: u32) -> bool
    requires { length reserved.now ≡ reserved_size }
    ensures { result ≡ reserved_ok revision reserved.now }
{
    revision <= 1
        && bytes::get_u64(reserved, 0) == revision as u64
        && bytes::all_zero(&reserved[8..])
}

// Whether the name in block `p` is one. It is judged where it stands: a copy would have to be stored first.
#[tactic(auto, using(links::proofs::SoundLaws::called_at))]
fn is_called(card: &[u8], p: Physical) -> bool
    requires { block_size * p.0 + block_size ≤ length card.now }
    ensures { result ≡ is_name (descriptor_at card.now p.0).name }
{
    let at = p.start();
    name::are_name(&card[at + NAME_START..at + HEAD_SIZE])
}

// Whether layout and L are in range, with `KNOWN` known already.
fn is_in_range<const KNOWN: bool>(d: Descriptor) -> bool
    requires { KNOWN ≡ true → in_range d ≡ true }
    ensures { result ≡ in_range d }
{
    KNOWN || (1..=2).contains(&d.layout) && (1..=MOST_VOLUME).contains(&d.volume)
}

// Whether mark, layout, L, name, revision and zero bytes of block `p` are those of a descriptor; `d` is what its bytes say, `RANGE_KNOWN` whether its layout and
// L are known to be in range.
#[tactic(auto, unfolding(chains::specs::Chain::form_ok, blocks::specs::Descriptor::phi_ok))]
fn is_formed<const RANGE_KNOWN: bool>(card: &[u8], p: Physical, d: Descriptor) -> bool
    requires { (block_size * p.0 + block_size ≤ length card.now) × (d ≡ descriptor_at card.now p.0) × (RANGE_KNOWN ≡ true → in_range d ≡ true) }
    ensures { result ≡ form_ok card.now p.0 d }
{
    let at = p.start();
    has_mark(card, p)
        && is_in_range::<RANGE_KNOWN>(d)
        && is_called(card, p)
        && is_reserved(
            &card[at + HEAD_SIZE..at + PHI_START],
            descriptor::revision_at(card, Physical(0)),
        )
        && (d.layout != 1 || bytes::all_zero(&card[at + PHI_START..at + BLOCK_SIZE]))
}

// Whether layout and L are those of block 0, and alpha, beta and next those of a region that starts at block `p` of `n`. The tests of next are a `match`: with `||`
// and `&&` a walk took an eighth more time.
#[tactic(auto, unfolding(chains::specs::Chain::region_ok))]
fn is_placed(first: Descriptor, n: usize, p: Physical, d: Descriptor) -> bool
    ensures { result ≡ region_ok first n p.0 d }
{
    let beta = d.beta.0 as usize;
    d.layout == first.layout
        && d.volume == first.volume
        && d.alpha == p
        && d.alpha.0 as usize + descriptor::opening_cost(d.layout, d.volume) as usize <= beta
        && beta <= n
        && match d.next {
            Physical(0) => true,
            next if next == d.beta => beta < n,
            _ => false,
        }
}

// Whether the descriptor `d` in block `p` of `n` is formed and placed as it must be.
pub fn is_right(card: &[u8], first: Descriptor, n: usize, p: Physical, d: Descriptor) -> bool
    requires { (block_size * p.0 + block_size ≤ length card.now) × (d ≡ descriptor_at card.now p.0) }
    ensures { result ≡ (form_ok card.now p.0 d && region_ok first n p.0 d) }
{
    is_formed::<false>(card, p, d) && is_placed(first, n, p, d)
}

// The same as `is_right` of a later descriptor: once `is_placed` has found it to have the same layout and L as the first, their range needs no test.
pub fn is_next(card: &[u8], first: Descriptor, n: usize, p: Physical, d: Descriptor) -> bool
    requires { (block_size * p.0 + block_size ≤ length card.now) × (d ≡ descriptor_at card.now p.0) × (form_ok card.now 0 first ≡ true) }
    ensures { result ≡ (form_ok card.now p.0 d && region_ok first n p.0 d) }
{
    is_placed(first, n, p, d) && is_formed::<true>(card, p, d)
}
