// The plain search for the nearest shade: every point looks at every shade.
//
// Calls; none refuses, and what one requires stands above it
//   lay_out         the colours of keys in three lists         all.rt
//   search_points   the nearest shade of each point laid out
//   search_all      the same for the colours of a table
//
// Read next: specs/Lib.antt (what the words mean), proofs/Lib.antt (what is shown).

#![tactic(auto)]

mod all;

pub use all::{lay_out, search_all, search_points};
