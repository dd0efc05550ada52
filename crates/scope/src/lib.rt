// The numbers of document 01 in literals, and those of document 02 where it changes them: one
// table, proved by computation, of every constant, of every refusal's number, of each test at its
// boundary and of headers with comments; and the order of each call's refusals. Definitions and
// theorems alone; there is no function here.
//
// Lay specs/Refusals.antt, specs/Constants.antt, specs/Bounds.antt, specs/Comments.antt and, of
// shades fixed from stock, specs/Fixed.antt beside the documents.
// Read next: specs/Lib.antt (the words and the table), proofs/Promises.antt (that it comes out).

#![tactic(auto)]
