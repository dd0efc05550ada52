// One pixel added to a table that lies in two slices.
//
// Functions, for the crates above (each says what it requires)
//   pixel::add_pixel   one pixel, by a search for its place
//   pixel::place       a key's place among keys that rise, by halving
//   pixel::stands      whether the key stands at its place
// The first answers the number of entries with the pixel. Where that is above the room, the slices
// are as they were.
//
// Read next: specs/Lib.antt (what the words mean), proofs/Lib.antt (which laws stand where).
#![tactic(auto)]

pub mod pixel;
