// When a run is refused: its tests, in their order.
//
// Calls; none requires anything of its caller
//   run_refusal    refuses by the first test of a run that holds                order.rt
//   room_refusal   the same of limit and rooms, the tests at the end of every run
// The tests themselves stand in table_test and lloyd_tests.
//
// Read next: specs/Lib.antt (what the words mean).

#![tactic(auto)]

mod order;

pub use order::{room_refusal, run_refusal};

// The most rounds of a run.
pub const MOST_ROUNDS: usize = 200;
