// The shortened search for the nearest shade: it tries only the shades near the former one, along a
// row that rises, and finds what the plain search of crate `search_all` finds. Crate `search_rows`
// fills the rows, and has `Met`, which is answered.
//
// Calls; none refuses, and what one requires stands above it
//   walk   the shortened search, along a row   short.rt
//
// Read next: specs/Lib.antt (what the words mean), proofs/Lib.antt (what is shown).

#![tactic(auto)]

mod short;

pub use short::walk;
