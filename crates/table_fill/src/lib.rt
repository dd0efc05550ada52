// Taking the pixels of a strip into a sound table, from first to last, until one does not go in:
// one by one where they are few, else in chunks.
//
// Function, for the crate above (it says what it requires)
//   take_strip   as many pixels of a strip as go in; answers how many, their levels added up, and
//                the used entries then
//
// Read next: specs/Lib.antt (what the words mean), proofs/Lib.antt (which laws stand where).
#![tactic(auto)]

mod take;

pub use take::{Took, take_strip};
