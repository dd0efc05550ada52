// The farthest entry of a table, by distances that are kept for its entries and lowered from point
// to point.
//
// Calls; none refuses, and what one requires stands above it
//   lower_kept   lowers the kept distances to those to a point; the greatest left   far.rt
//   first_of     the first place of the greatest
//
// Read next: specs/Lib.antt (what the words mean), proofs/Lib.antt (what is shown).

#![tactic(auto)]

mod far;

pub use far::{first_of, lower_kept};
