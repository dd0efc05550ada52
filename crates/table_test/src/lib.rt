// The test of a table: whether a record and the entries in two slices are one.
//
// Calls; none requires anything of its caller, and none refuses
//   bad_table   the test behind 2 BAD TABLE
//   room_of     the room of two lent slices
// Both are passed on by the crate table, with the struct `Record`. The channel sums are judged by
// the crate table_sums.
//
// Read next: specs/Lib.antt (what the words mean), proofs/Promises.antt (what is shown).
#![tactic(auto)]

mod test;

pub use test::{bad_table, room_of};

// The most entries of a table.
pub const MOST_ENTRIES: usize = 1048576;

// How many entries are used; the pixels: the sum of the used weights; and the sums of the three
// channels in whole levels, weights counted.
#[derive(Clone, Copy)]
pub struct Record {
    pub used: usize,
    pub pixels: u64,
    pub red: u64,
    pub green: u64,
    pub blue: u64,
}
