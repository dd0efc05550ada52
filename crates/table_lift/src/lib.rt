// Entries of a table that lies in two slices, moved up: one, or sixteen at once.
//
// Functions, for the crate above (each says what it requires)
//   lift::move_sixteen   the last sixteen of the first entries
//   lift::move_one       the last of the first entries
//
// Read next: specs/Lib.antt (what the words mean), proofs/Lib.antt (which laws stand where).
#![tactic(auto)]

pub mod lift;
