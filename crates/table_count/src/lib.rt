// How many entries a table that lies in two slices has with sorted streaks.
//
// For the crates above (the function says what it requires)
//   count::count_with   how many entries the table has with the streaks
//   count::PAST_KEYS    above every key: the first key done where there is none
//
// Read next: specs/Lib.antt (what the words mean), proofs/Lib.antt (which laws stand where).
#![tactic(auto)]

pub mod count;
