// The slots of a block of pixels: pixels with one colour share one, so that it is searched once.
//
// Calls; none refuses, and what one requires stands above it
//   gather   equal pixels that follow one another get one slot   streaks.rt
// Slots with one key become one in crate `map_join`; the colours at slots are searched in crate
// `map_find`.
//
// Read next: specs/Lib.antt (what the words mean), proofs/Lib.antt (what is shown).

#![tactic(auto)]

mod streaks;

pub use streaks::gather;
