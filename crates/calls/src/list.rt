// How many records a sheet has.

pub const SHEET_RECORDS: usize = 64;
