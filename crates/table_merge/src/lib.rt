// Sorted streaks merged into a table that lies in two slices, in place.
//
// Function, for the crate above (it says what it requires)
//   merge::merge   the streaks into the table, in one walk from the back
//
// Read next: specs/Lib.antt of table_count (what the words mean), proofs/Lib.antt (which laws stand
// where).
#![tactic(auto)]

pub mod merge;
