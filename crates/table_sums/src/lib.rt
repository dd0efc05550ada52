// The channel sums of a table, judged: are these the sums of the entries in two slices.
// A pass over the entries works out two numbers in place of three sums, as multiplications are what
// it costs: 65536 R + 256 G + B, which is the keys times their weights, and R + 16777216 B. No
// other three sums that a table may have give both.
//
// Functions, for the crate above (each says what it requires)
//   two_sums     both numbers over the entries of a table
//   other_sums   whether these three are not the sums that gave both
//
// Read next: specs/Lib.antt (what the words mean), proofs/Lib.antt (what is shown).
#![tactic(auto)]

mod sums;

pub use sums::{other_sums, two_sums};

// The keys times their weights, and the second number, over the entries of a table.
#[derive(Clone, Copy)]
pub struct TwoSums {
    pub first: u64,
    pub second: u64,
}
