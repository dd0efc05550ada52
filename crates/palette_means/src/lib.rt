// The palette of a table's groups on input that is known to be good: each entry is the mean of its
// group in whole levels, rounded once.
//
// Calls; none refuses, and what one requires stands above it
//   fill_by_groups   the palette of the groups that the members tell   fill.rt
// The groups are added up in sums.rt.
//
// Read next: specs/Lib.antt (what the words mean), proofs/Lib.antt (what is shown).

#![tactic(auto)]

mod fill;
mod sums;

pub use fill::fill_by_groups;
