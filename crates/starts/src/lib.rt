// Maximin starting shades, and the mean of a table, from which they begin, read from its sums. The
// members are the scratch in which each entry's distance to its nearest shade so far is kept: one
// distance is worked out for each colour and shade.
//
// Calls; none refuses, and what one requires stands above it
//   fill_starts   the starting shades from given ones               fill.rt
//   mean_of       the rounded mean of pixels, from their sums       mean.rt
// Crate `starts_far` lowers the kept distances and finds the farthest entry.
//
// Read next: specs/Lib.antt (what the words mean), proofs/Lib.antt (what is shown).

#![tactic(auto)]

mod fill;
mod mean;

pub use fill::fill_starts;
pub use mean::mean_of;
