// Rows for the shortened search: for each shade the shades by rising distance. What a search along
// rows answers, whichever rows they are, is `Met`.
//
// Calls; none refuses, and what one requires stands above it
//   fill_rows   for each shade the packed distances to the shades, rising   rows.rt
// Counting the numbers up to a limit stands in rank.rt.
//
// Read next: specs/Lib.antt (what the words mean), proofs/Lib.antt (what is shown).

#![tactic(auto)]

mod rank;
mod rows;

pub use rows::fill_rows;

// The nearest shade's number, its distance, and how many distances were worked out.
#[derive(Clone, Copy)]
pub struct Met {
    pub number: u32,
    pub distance: u32,
    pub distances: u64,
}
