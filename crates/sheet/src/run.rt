// What a line adds to its answer.

// What a line adds to its printed answer: nothing, a read's byte, or the first records of a listing.
#[derive(Clone, Copy)]
pub enum Addition {
    Nothing,
    Byte(u8),
    FirstRecords(usize),
}
