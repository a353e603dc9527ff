// What finding an entry gives.
use blocks::numbers::Physical;

// An entry on the way is not in place: the block that holds it.
#[derive(Clone, Copy)]
pub struct Misplaced(pub Physical);

// An entry in place: the block of the table that holds it, nil where there is no such block, and the block that it names, nil where it names none.
#[derive(Clone, Copy)]
pub struct Slot {
    pub table: Physical,
    pub entry: Physical,
}
