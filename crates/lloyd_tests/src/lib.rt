// The tests of counts, limits, rooms and members: those of runs and rounds, and what palettes share
// with them.
//
// Calls; none refuses, and what one requires stands above it
//   bad_count    the test of 4 BAD COUNT of a run     test.rt
//   limit_of     the limit asked for: 100 for 0
//   bad_member   the test of 9 BAD MEMBER
//
// Read next: specs/Lib.antt (what the words mean), proofs/Promises.antt (what is shown).

#![tactic(auto)]

mod test;

pub use test::{bad_count, bad_member, limit_of};

// The limit that a limit of 0 means.
pub const USUAL_LIMIT: usize = 100;
