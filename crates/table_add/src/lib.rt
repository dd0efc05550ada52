// Adding pixels to a table that lies in two slices: one by one, or gathered as streaks, sorted and
// merged.
//
// Functions, for the crate above (each says what it requires)
//   chunk::add_one    one pixel of a strip
//   chunk::add_some   as many pixels of a strip as one list of streaks holds
// A function that adds answers the number of entries with the pixels, and their levels added up.
// Where that number is above the room, the slices are as they were.
//
// Read next: specs/Lib.antt (what the words mean), proofs/Lib.antt (which laws stand where).
#![tactic(auto)]

pub mod chunk;
