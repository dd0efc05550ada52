// Each colour of a table joins its nearest shade, found by the shortened search from its former
// one. The groups' sums stand in 128 numbers that are lent, at 2q and 2q + 1 those of group q.
//
// Calls; none refuses, and what one requires stands above it
//   regroup   by the shortened search, with the rows that are quicker for the table   choose.rt
// The grouping itself, with rows that are there, stands in short.rt.
//
// Read next: specs/Lib.antt (what the words mean), proofs/short.antt (what is shown).

#![tactic(auto)]

mod choose;
mod short;

pub use choose::regroup;

// The rows that the shortened search goes by: of gaps, or rising.
#[derive(Clone, Copy)]
enum Kind {
    Gaps,
    Rising,
}
