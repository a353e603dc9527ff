// A listing of the chain.
ghost use Rattle.std.specs.Prelude.{◌≡◌, true, List, ℕ, ◌+◌, ◌*◌, ◌-◌, ◌≤◌, ◌<◌, length, take, replicate, get_or, IfOk};
ghost use Rattle.std.specs.Result.{IfErr};
ghost use Rattle.blocks.specs.Pick.{pick};
ghost use Rattle.blocks.specs.Bytes.{block_size};
ghost use Rattle.chains.specs.Chain.{chain, starts_size, walk_of};
ghost use Rattle.chains.specs.Walk.{Enough, places_left};
ghost use Rattle.calls.specs.declared.answer.Record.{Record as RecordOf};
ghost use Rattle.calls.specs.Call.{Listing, Records, answered};
ghost use Rattle.calls.specs.Parts.{SoundCard};
ghost use Rattle.calls.specs.Ladder.{admission, first_row};
ghost use Rattle.calls.specs.Step.{is_accepted, step, done};
ghost use Rattle.calls.specs.Listing.{filling_as, filling_of, filling_by, plan_of, ListReady, record_by, filled, record_count};

use admitting::area;
use blocks::descriptor;
use blocks::numbers::Physical;
use blocks::sizes::{FEW_STARTS, STARTS_SIZE};
use calls::answer::{Record, Refusal};
use indexing::index;
use walking::chain;

// What a listing into `room` records answers, by all its tests in their order, and how many records it fills: none where it is refused. Where it is accepted the
// first of the places, one more than that, are then set to where the regions start and where the last one ends.
fn make_plan(card: &[u8], starts: &mut [u32], room: usize) -> (Result<(), Refusal>, usize)
    requires { Enough card.now starts.old }
    ensures value { (records : List RecordOf) → length records ≡ room → record { answer = answered result.0; count = result.1 } ≡ filling_of card.now records }
    ensures filling { let w = walk_of (chain card.now) in record { answer = answered result.0; count = result.1 } ≡ filling_by card.now w.sound w.place.0 w.count room }
    ensures plan { is_accepted (first_row (admission card.now)) ≡ true → starts.old ≡ replicate starts_size 0 → record { answer = answered result.0; count = result.1; starts = starts.new } ≡ plan_of card.now room }
    ensures starts_after { starts.new ≡ pick (is_accepted (first_row (admission card.now))) (places_left card.now starts.old) starts.old }
    ensures sound { IfOk result.0 (λ u. SoundCard card.now result.1 (take (result.1 + 1) starts.new)) }
    ensures none { IfErr result.0 (λ r. result.1 ≡ 0) }
    ensures upper_bound { (result.1 ≤ room) × (result.1 < length starts.old) }
{
    if let Err(refusal) = area::admit(card) {
        return (Err(refusal), 0);
    }
    let count = match chain::walk_chain(card, starts) {
        Ok(count) => count,
        Err(unsound) => return (Err(Refusal::from(unsound)), 0),
    };
    if room < count {
        return (Err(Refusal::TooFewRecords), 0);
    }
    (Ok(()), count)
}

// How many records a listing into `room` records fills, or its refusal: the plan for a caller that fills none where it is refused. The places are as the plan leaves them.
pub fn count_listed(card: &[u8], starts: &mut [u32], room: usize) -> Result<usize, Refusal>
    requires { Enough card.now starts.old }
    ensures value { (records : List RecordOf) → length records ≡ room → filling_as result ≡ filling_of card.now records }
    ensures filling { let w = walk_of (chain card.now) in filling_as result ≡ filling_by card.now w.sound w.place.0 w.count room }
    ensures plan { is_accepted (first_row (admission card.now)) ≡ true → starts.old ≡ replicate starts_size 0 → let f = filling_as result in record { answer = f.answer; count = f.count; starts = starts.new } ≡ plan_of card.now room }
    ensures starts_after { starts.new ≡ pick (is_accepted (first_row (admission card.now))) (places_left card.now starts.old) starts.old }
    ensures sound { IfOk result (λ n. SoundCard card.now n (take (n + 1) starts.new)) }
    ensures ready { IfOk result (λ n. ListReady card.now true 0 n (take (n + 1) starts.new)) }
    ensures upper_bound { IfOk result (λ n. (n ≤ room) × (n < length starts.old)) }
{
    let (answer, count) = make_plan(card, starts, room);
    answer?;
    Ok(count)
}

// The record of region `k`, by where the regions start and where the last one ends: of its bytes the name alone is read.
pub fn record_of(card: &[u8], starts: &[u32], k: usize) -> Record
    requires { (k + 1 < length starts.now) × (block_size * get_or starts.now k 0 + block_size ≤ length card.now) }
    ensures { result ≡ record_by card.now starts.now (length starts.now - 1) k }
{
    let alpha = Physical(starts[k]);
    let beta = Physical(starts[k + 1]);
    Record {
        name: descriptor::name_at(card, alpha),
        alpha,
        beta,
        next: index::next_of(beta, k, starts.len() - 1),
    }
}

// The first `n` records are now those of the `n` regions.
fn fill(card: &[u8], starts: &[u32], records: &mut [Record], n: usize)
    requires { (n ≤ length records.old) × (n < length starts.now) × ((j : ℕ) → j < n → block_size * get_or starts.now j 0 + block_size ≤ length card.now) }
    ensures { records.new ≡ filled card.now starts.now records.old n }
{
    for (k, r) in records[..n].iter_mut().enumerate() {
        *r = record_of(card, &starts[..n + 1], k);
    }
}

// Lists the chain: the first records are those of its descriptors, in chain order, and the others are unchanged.
pub fn list(card: &[u8], records: &mut [Record]) -> Result<(), Refusal>
    ensures { done (answered result) (Records records.new) card.now ≡ step (Listing records.old) card.now }
{
    // a short chain is walked with few places, so that a card with few snapshots does not wait until 257 are cleared
    if chain::is_short(card) {
        list_in::<FEW_STARTS>(card, records)
    } else {
        list_in::<STARTS_SIZE>(card, records)
    }
}

// The same by a walk with so many places.
fn list_in<const PLACES: usize>(card: &[u8], records: &mut [Record]) -> Result<(), Refusal>
    requires { Enough card.now (replicate PLACES 0) }
    ensures { done (answered result) (Records records.new) card.now ≡ step (Listing records.old) card.now }
{
    let mut starts = [0u32; PLACES];
    let (answer, count) = make_plan(card, &mut starts, records.len());
    fill(card, &starts, records, count);
    answer
}

// How many of the records a listing has filled: up to the first whose next is 0, that one too.
pub fn count_records(records: &[Record]) -> usize
    ensures { result ≡ record_count records.now }
{
    match records.iter().position(|r| r.next.0 == 0) {
        Some(last) => last + 1,
        None => records.len(),
    }
}
