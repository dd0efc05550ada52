// The slots of a block joined, where they are few: those with one key become one, so that a colour
// is searched once wherever its pixels stand.
//
// Calls; none refuses, and what one requires stands above it
//   join   slots with one key become one   keys.rt
//
// Read next: specs/Lib.antt (what the words mean), proofs/Lib.antt (what is shown).

#![tactic(auto)]

mod keys;

pub use keys::join;
