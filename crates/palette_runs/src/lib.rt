// The palette of an accepted run: what is shown of palette_from_groups on what a run answers and
// leaves. There is no function here.
//
// Read next: proofs/Promises.antt (what is shown).

#![tactic(auto)]
