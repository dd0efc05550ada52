// The shortened search on a small table: the row of a shade has its gaps to the shades, in order of
// their numbers, and all of it is gone through. It finds what the plain search of crate
// `search_all` finds. Crate `search_rows` has `Met`, which is answered.
//
// Calls; none refuses, and what one requires stands above it
//   fill_gaps   for each shade how far the shades are from it   near.rt
//   walk_gaps   the shortened search, through all of a row
//
// Read next: specs/Lib.antt (what the words mean), proofs/Lib.antt (what is shown).

#![tactic(auto)]

mod near;

pub use near::{fill_gaps, walk_gaps};
