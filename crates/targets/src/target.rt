// What a read, a visit or a span read is asked of: the active store, or a snapshot by its name.
ghost use Rattle.std.specs.Prelude.{◌≡◌, ◌&&◌, not, ℕ, ◌+◌, ◌*◌, ◌-◌, ◌≤◌, ◌<◌, length, take, get_or, IfSome, unwrap_or};
ghost use Rattle.blocks.specs.Bytes.{block_size};
ghost use Rattle.blocks.specs.Name.{is_name};
ghost use Rattle.chains.specs.Chain.{descriptors_at};
ghost use Rattle.calls.specs.Call.{target_as, name_as};
ghost use Rattle.calls.specs.Parts.{is_snapshot, target_index};

use calls::answer::Target;
use indexing::index;
use names::name;

// Whether a name is given that is none.
pub fn is_unnamed(target: Target) -> bool
    ensures { result ≡ (is_snapshot (target_as target) && not (is_name (name_as target))) }
{
    match target {
        Target::Active => false,
        Target::Snapshot(name) => !name::is_name(name),
    }
}

// The index in the chain of what is read, by where its regions start; none where no snapshot has the name.
pub fn target_index(card: &[u8], starts: &[u32], target: Target) -> Option<usize>
    requires { (0 < length starts.now) × ((j : ℕ) → j < length starts.now → block_size * get_or starts.now j 0 + block_size ≤ length card.now) }
    ensures value { unwrap_or result (length starts.now) ≡ target_index (descriptors_at card.now (take (length starts.now - 1) starts.now)) (target_as target) (name_as target) }
    ensures upper_bound { IfSome result (λ k. k < length starts.now) }
{
    let last = starts.len() - 1;
    match target {
        Target::Active => Some(last),
        Target::Snapshot(name) => index::index_of(card, &starts[..last], name),
    }
}
