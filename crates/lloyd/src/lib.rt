// The shades of a table: single rounds, plain and shortened, and the run.
//
// Calls; none requires anything of its caller
//   run           starting shades and shortened rounds.       runs.rt
//                 Refuses 2 BAD TABLE, 4 BAD COUNT, 5 FEW COLOURS, 6 BAD LIMIT, 7 SHORT ROOM, in
//                 this order.
//   run_jancey    the same run with shades that step past the mean.   Refuses as run does.
//   plain_round, short_round   one round: those of the crate lloyd_rounds
// A refusal is the error of the answer, and writes nothing. The tests stand in lloyd_refusal; the
// work is done by the crate rounds.
//
// Read next: specs/Lib.antt (what the words mean), proofs/Promises.antt (what is shown).

#![tactic(auto)]

mod runs;

pub use lloyd_refusal::MOST_ROUNDS;
pub use lloyd_rounds::{Rounded, plain_round, short_round};
pub use lloyd_tests::USUAL_LIMIT;
pub use runs::{run, run_jancey};

// The answer of a run: the shades, three coordinates each, zeros past the count; the rounds made;
// whether the last moved no shade; the distances of all rounds; the last grouping against the final
// shades.
#[derive(Clone, Copy)]
pub struct Ran {
    pub shades: [u32; 192],
    pub rounds: usize,
    pub settled: bool,
    pub distances: u64,
    pub total: u64,
}
