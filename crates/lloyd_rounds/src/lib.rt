// Single rounds of the method, plain and shortened.
//
// Calls; none requires anything of its caller
//   plain_round   one round, every shade looked at.           round.rt
//                 Refuses 2 BAD TABLE, 4 BAD COUNT, 8 BAD CENTRE, 7 SHORT ROOM, in this order.
//   short_round   one round by the shortened search.
//                 Refuses 2, 4, 8, 7, 9 BAD MEMBER, in this order.
// A refusal is the error of the answer, and writes nothing. The tests stand in table_test, shades
// and lloyd_tests; the work is done by the crate rounds.
//
// Read next: specs/Lib.antt (what the words mean), proofs/Promises.antt (what is shown).

#![tactic(auto)]

mod round;

pub use round::{plain_round, short_round};

// The answer of a single round: the round's total; the number of shades that moved; the distances
// worked out.
#[derive(Clone, Copy)]
pub struct Rounded {
    pub total: u64,
    pub moved: u32,
    pub distances: u64,
}
