// Names and targets as a caller of the exported functions gives them.
ghost use Rattle.std.specs.Prelude.{◌≡◌};
ghost use Rattle.calls.specs.Call.{Snapshot, target_as, name_as};
ghost use Rattle.boundary.specs.Exported.{name_in, target_in};

use blocks::bytes;
use blocks::sizes::NAME_SIZE;
use calls::answer::Target;

// The name in lent bytes, sixteen zeros where they are not sixteen.
#[tactic(auto, using(crate::proofs::ExportedLaws::name_other, crate::proofs::ExportedLaws::name_whole))]
pub fn name_in(lent: &[u8]) -> [u8; NAME_SIZE]
    ensures { result ≡ name_in lent.now }
{
    if lent.len() != NAME_SIZE {
        return [0; NAME_SIZE];
    }
    bytes::array_at(lent, 0)
}

// The active store at 0, else the snapshot of the name.
#[tactic(auto, unfolding(crate::specs::Exported::target_in))]
pub fn target_in(snapshot: u32, name: &[u8]) -> Target
    ensures kind { target_as result ≡ target_in snapshot }
    ensures name { target_as result ≡ Snapshot → name_as result ≡ name_in name.now }
{
    if snapshot == 0 {
        Target::Active
    } else {
        Target::Snapshot(name_in(name))
    }
}
