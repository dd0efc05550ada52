// The slots of a block searched: the nearest shade of the colour at each.
//
// Calls; none refuses, and what one requires stands above it
//   search_slots   the nearest shade of the colour at each slot   find.rt
//
// Read next: specs/Lib.antt of shades (what the words mean), proofs/Lib.antt (what is shown).

#![tactic(auto)]

mod find;

pub use find::search_slots;
