// Rounds one after the other on a table and shades that are known to be good.
//
// Calls; none refuses, and what one requires stands above it
//   make_rounds   shortened rounds by either rule, with the first shades held, to the first that
//                 moves no shade, or to a limit   many.rt
//
// Read next: specs/Lib.antt (what the words mean), proofs/Lib.antt (what is shown).

#![tactic(auto)]

mod many;

pub use many::make_rounds;

// What rounds answer: how many were made, whether the last moved no shade, and all distances.
#[derive(Clone, Copy)]
pub struct Series {
    pub rounds: usize,
    pub settled: bool,
    pub distances: u64,
}
