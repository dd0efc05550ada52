// Whole numbers, over places: what the other crates say with sums, counts, searches and weighted
// means.
// Definitions and laws alone; there is no function here.
//
// Read next: specs/Lib.antt (what the words mean), proofs/Promises.antt (what is shown of them).

#![tactic(auto)]
