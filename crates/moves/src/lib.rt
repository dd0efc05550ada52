// Where the shades of a grouping move: each to the rounded mean of its group, or by Jancey's step
// past it; the first shades may be held where they stand.
//
// Calls; none refuses, and what one requires stands above it
//   move_shades   moves shades that are not held, and answers how many it took elsewhere   step.rt
//
// Read next: specs/Lib.antt (what the words mean), proofs/Lib.antt (what is shown).

#![tactic(auto)]

mod step;

pub use step::move_shades;

// How far a shade goes: to the rounded mean of its group, or past it by Jancey's step.
#[derive(Clone, Copy)]
pub enum Stride {
    ToMean,
    PastMean,
}
