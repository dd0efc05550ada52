// The colour table: every colour of a sheet once, by rising key, with its weight in pixels.
//
// Calls; none requires anything of its caller
//   add_strip   takes a strip's pixels in order.
//               Refuses 1 BAD STRIP, 2 BAD TABLE, 3 FULL, in this order.
//   bad_table   the test behind BAD TABLE. Refuses nothing.
//   room_of     the room of two lent slices. Refuses nothing.
// A refusal hands the record back and writes nothing; FULL keeps the pixels taken before it.
//
// Adding stands in add.rt, and its pixels are taken by the crate table_fill; the record and the
// test are passed on from the crate table_test.
// Read next: specs/Lib.antt (what the words mean), proofs/Promises.antt (what is shown).
#![tactic(auto)]

mod add;

pub use add::add_strip;
use refusal::Refusal;
pub use table_test::{MOST_ENTRIES, Record, bad_table, room_of};

// The answer of an add: the refusal, if any; the pixels taken; the record as it is then. It has all
// of them on every input, as FULL keeps the pixels taken before it.
#[derive(Clone, Copy)]
pub struct Added {
    pub refusal: Option<Refusal>,
    pub taken: usize,
    pub rec: Record,
}
