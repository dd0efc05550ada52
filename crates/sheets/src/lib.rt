// The sheets worked by hand in document 01, as one table of examples that is proved to come out.
// Definitions and theorems alone; there is no function here.
//
// Read next: specs/Lib.antt (the words and the table), proofs/Promises.antt (that it comes out).

#![tactic(auto)]
