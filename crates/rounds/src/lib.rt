// A run on a table that is known to be good: starting shades, rounds to the first that moves no
// shade or to a limit, and the final total.
//
// Calls; none refuses, and what one requires stands above it
//   make_run   a run by either rule from the table's mean                              run.rt
//   run_from   a run by either rule from given shades, with the first shades held
// The members against the shades stand in total.rt.
//
// Read next: specs/Lib.antt (what the words mean), proofs/Lib.antt (what is shown).

#![tactic(auto)]

mod run;
mod total;

pub use run::{make_run, run_from};

// What a run answers, beside the shades: how many rounds were made, whether the last moved no
// shade, all distances, and the final total.
#[derive(Clone, Copy)]
pub struct Whole {
    pub rounds: usize,
    pub settled: bool,
    pub distances: u64,
    pub total: u64,
}
