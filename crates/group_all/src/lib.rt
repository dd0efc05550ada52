// Each colour of a table joins its nearest shade, found by the plain search. The groups' sums stand
// in 128 numbers that are lent, at 2q and 2q + 1 those of group q.
//
// Calls; none refuses, and what one requires stands above it
//   group_plain   by the plain search   plain.rt
//
// Read next: specs/Lib.antt of group_join (what the words mean), proofs/plain.antt (what is shown).

#![tactic(auto)]

mod plain;

pub use plain::group_plain;
