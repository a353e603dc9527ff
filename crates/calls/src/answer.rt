// What a call takes and answers besides bytes.
ghost use Rattle.std.specs.Prelude.{◌≡◌};
ghost use Rattle.calls.specs.Call.{number_of, place_of, refused, answered};

use blocks::numbers::Physical;
use blocks::sizes::NAME_SIZE;
use chains::chain::UnsoundChain;
use entries::find::{Misplaced, Slot};

// Why a call is refused, in the order of the numbers that the papers give to it. Two name the block at fault, and one a line of the work sheet.
#[derive(Clone, Copy)]
pub enum Refusal {
    NoCard,
    BadLayout,
    BadVolume,
    BadName,
    CardTooSmall,
    UnsoundChain(Physical),
    NoSnapshot,
    PastTheVolume,
    BadBlock,
    Misplaced(Physical),
    NoRoom,
    NameInUse,
    TooManySnapshots,
    TooFewRecords,
    BadLine(u32),
    PastTheEnd,
    BadRevision,
}

impl Refusal {
    // The number that the papers give to the refusal.
    pub fn number(self) -> u32
        ensures { result ≡ number_of self }
    {
        match self {
            Refusal::NoCard => 1,
            Refusal::BadLayout => 2,
            Refusal::BadVolume => 3,
            Refusal::BadName => 4,
            Refusal::CardTooSmall => 5,
            Refusal::UnsoundChain(_) => 6,
            Refusal::NoSnapshot => 7,
            Refusal::PastTheVolume => 8,
            Refusal::BadBlock => 9,
            Refusal::Misplaced(_) => 10,
            Refusal::NoRoom => 11,
            Refusal::NameInUse => 12,
            Refusal::TooManySnapshots => 13,
            Refusal::TooFewRecords => 14,
            Refusal::BadLine(_) => 15,
            Refusal::PastTheEnd => 16,
            Refusal::BadRevision => 17,
        }
    }

    // The place of the refusal: the block or the line that it names, else 0.
    pub fn place(self) -> u32
        ensures { result ≡ place_of self }
    {
        match self {
            Refusal::UnsoundChain(p) | Refusal::Misplaced(p) => p.0,
            Refusal::BadLine(line) => line,
            _ => 0,
        }
    }
}

impl From<UnsoundChain> for Refusal {
    ghost use Rattle.calls.specs.declared.answer.Refusal.{Refusal};

    ghost from_gives = { λ e r. r ≡ Refusal.UnsoundChain e.0 };

    fn from(e: UnsoundChain) -> Refusal {
        Refusal::UnsoundChain(e.0)
    }
}

impl From<Misplaced> for Refusal {
    ghost use Rattle.calls.specs.declared.answer.Refusal.{Refusal};

    ghost from_gives = { λ e r. r ≡ Refusal.Misplaced e.0 };

    fn from(e: Misplaced) -> Refusal {
        Refusal::Misplaced(e.0)
    }
}

// The number and the place of an answer: 0 and 0 where the call is accepted, else a refusal's.
#[derive(Clone, Copy)]
pub struct Answer {
    pub number: u32,
    pub place: u32,
}

impl From<Refusal> for Answer {
    ghost from_gives = { λ r a. a ≡ refused r };

    fn from(r: Refusal) -> Answer {
        Answer {
            number: r.number(),
            place: r.place(),
        }
    }
}

impl From<Result<(), Refusal>> for Answer {
    ghost from_gives = { λ r a. a ≡ answered r };

    fn from(r: Result<(), Refusal>) -> Answer {
        match r {
            Ok(()) => Answer {
                number: 0,
                place: 0,
            },
            Err(e) => Answer::from(e),
        }
    }
}

// What a read reads, and what a visit is asked of: the active store, or the snapshot that has the name.
#[derive(Clone, Copy)]
pub enum Target {
    Active,
    Snapshot([u8; NAME_SIZE]),
}

// One descriptor of the chain as a listing gives it.
#[derive(Clone, Copy)]
pub struct Record {
    pub name: [u8; NAME_SIZE],
    pub alpha: Physical,
    pub beta: Physical,
    pub next: Physical,
}

// Where a write goes: the block of the active descriptor, the slot of the entry, and the blocks that the write takes.
#[derive(Clone, Copy)]
pub struct Aim {
    pub alpha: Physical,
    pub slot: Slot,
    pub taken: u32,
}
