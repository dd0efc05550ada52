// Where the slots of a block are few: what is written of its pixels is told once for each slot, and
// read from there.
//
// Functions, for the crate above; none refuses, and what one requires stands above it
//   tell       tells squared differences and number of each slot    tell.rt
//   add_told   stores numbers and adds up errors, as they are told
//
// Read next: specs/Lib.antt (what the words mean), proofs/Lib.antt (which laws stand where).

#![tactic(auto)]

pub mod tell;
