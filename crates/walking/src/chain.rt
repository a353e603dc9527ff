// The walk along the chain of descriptors, for any bytes whatever.
ghost use Rattle.std.specs.Prelude.{◌≡◌, true, ℕ, ◌+◌, ◌*◌, ◌≤◌, ◌<◌, length, take, get_or, IfOk};
ghost use Rattle.blocks.specs.Bytes.{block_size};
ghost use Rattle.chains.specs.Chain.{named, descriptors_at, chain, descriptors, starts_of, walk_of, walk_as};
ghost use Rattle.chains.specs.Walk.{has_flag, with_flag, Hashed, Enough, few_descriptors, ends_within, places_left};

use blocks::descriptor;
use blocks::numbers::Physical;
use blocks::sizes::{BLOCK_SIZE, FEW_DESCRIPTORS, NAME_SIZE};
use chains::chain::UnsoundChain;
use indexing::index;
use names::name;
use validating::sound;

// How many words of 32 bits hold a flag for each hash of a name.
const FLAG_WORDS: usize = name::HASH_COUNT / 32;

// Whether flag `h` is set.
#[tactic(auto, unfolding(chains::specs::Walk::has_flag))]
fn has_flag(words: &[u32], h: usize) -> bool
    requires { h < 32 * length words.now }
    ensures { result ≡ has_flag words.now h }
{
    (words[h / 32] >> (h % 32)) % 2 == 1
}

// Sets flag `h`.
#[tactic(auto, using(links::proofs::FlagLaws::one_shifted), unfolding(chains::specs::Walk::with_flag))]
fn set_flag(words: &mut [u32], h: usize)
    requires { h < 32 * length words.old }
    ensures { words.new ≡ with_flag words.old h }
{
    words[h / 32] |= 1 << (h % 32);
}

// Whether one of the descriptors in the blocks of `starts` has the name, where `words` has a flag for the hash of each of their names: a hash without one is of
// no name among them.
fn is_repeated(card: &[u8], starts: &[u32], words: &[u32], name: [u8; NAME_SIZE]) -> bool
    requires { Hashed card.now starts.now (length starts.now) words.now × ((j : ℕ) → j < length starts.now → block_size * get_or starts.now j 0 + block_size ≤ length card.now) }
    ensures { result ≡ named (descriptors_at card.now starts.now) name }
{
    has_flag(words, name::hash(name)) && index::is_named(card, starts, name)
}

// Whether the links from block 0 end within a few descriptors, so that a few places are enough for the walk. Which of them are sound is left to it.
#[tactic(auto, using(links::proofs::ChainLaws::ends_step, links::proofs::ChainLaws::ends_out))]
pub fn is_short(card: &[u8]) -> bool
    ensures { result ≡ ends_within card.now few_descriptors 0 }
{
    let n = card.len() / BLOCK_SIZE;
    let mut p = Physical(0);
    for _ in 0..FEW_DESCRIPTORS {
        if n <= p.0 as usize {
            return false;
        }
        p = descriptor::read_descriptor(card, p).next;
        if p.is_nil() {
            return true;
        }
    }
    false
}

// Walks the chain of the card with enough lent places. Where it is sound, the first of these, one more than there are descriptors, are set to where the regions
// start and where the last one ends. A chain of one descriptor ends before any flag is cleared. Else a flag for each name's hash says of most names that no
// earlier descriptor has them.
pub fn walk_chain(card: &[u8], starts: &mut [u32]) -> Result<usize, UnsoundChain>
    requires { Enough card.now starts.old }
    ensures value { walk_as result ≡ walk_of (chain card.now) }
    ensures starts_after { IfOk result (λ n. take (n + 1) starts.new ≡ starts_of (descriptors (chain card.now))) }
    ensures starts_after_2 { starts.new ≡ places_left card.now starts.old }
    ensures count_in_bounds { IfOk result (λ n. n < length starts.old) }
{
    let most = starts.len() - 1;
    starts[0] = 0;
    let n = card.len() / BLOCK_SIZE;
    if n == 0 {
        return Err(UnsoundChain(Physical(0)));
    }
    let first = descriptor::read_descriptor(card, Physical(0));
    if !sound::is_right(card, first, n, Physical(0), first) {
        return Err(UnsoundChain(Physical(0)));
    }
    starts[1] = first.beta.0;
    if first.next.is_nil() {
        return Ok(1);
    }
    let mut words = [0; FLAG_WORDS];
    set_flag(&mut words, name::hash(first.name));
    let mut p = first.next;
    for k in 1..most {
        let d = descriptor::read_descriptor(card, p);
        if !sound::is_next(card, first, n, p, d)
            || is_repeated(card, &starts[..k], &words, d.name)
        {
            return Err(UnsoundChain(p));
        }
        set_flag(&mut words, name::hash(d.name));
        starts[k + 1] = d.beta.0;
        if d.next.is_nil() {
            return Ok(k + 1);
        }
        p = d.next;
    }
    Err(UnsoundChain(p))
}
