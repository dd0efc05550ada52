// Keys that rise, passed from the back: what the last of them tell, and a key's place among them.
//
// Functions, for the crates above (each says what it requires)
//   back::clear        whether all keys are below a key
//   back::far          whether the last sixteen are there and none is below it
//   back::place_back   its place among them
//
// Read next: specs/Lib.antt (what the words mean), proofs/Lib.antt (which laws stand where).
#![tactic(auto)]

pub mod back;
