// The method: weighted colours, the grouping, a round, the starting shades and a run, and what is
// shown of them whatever program carries them out.
// Definitions and laws alone; there is no function here.
//
// Read next: specs/Lib.antt (what the words mean), proofs/Promises.antt (what is shown of them).

#![tactic(auto)]
