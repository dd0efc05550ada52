// A table as a list of entries: what it holds, and what pixels do to it.
// Definitions and laws alone; there is no function here.
//
// Read next: specs/Lib.antt (what the words mean), proofs/Promises.antt (what is shown of them).

#![tactic(auto)]
