// Jancey's step, on one coordinate of a shade: nine fifths of the way to the mean of its group, or
// the rounded mean where that would end no nearer.
//
// Calls; none refuses, and what one requires stands above it
//   leap   where the coordinate goes   step.rt
//
// Read next: the words past_mean, held_past and leap in the crate number.

#![tactic(auto)]

mod step;

pub use step::leap;
