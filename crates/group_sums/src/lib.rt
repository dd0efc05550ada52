// The sums of the groups of a table, two in one number of 64 bits: what an entry gives to them, how
// they are raised, and how they are read.
//
// Calls; none refuses, and what one requires stands above it
//   gift_of     what an entry gives to its group       give.rt
//   raise       adds to the two sums of a group
//   lower       takes from them
//   pixels_of   a group's pixel count                  read.rt
//   level_sum   its sum of a channel, in whole levels
//
// Read next: specs/Lib.antt (what the words mean), proofs/Lib.antt (what is shown).

#![tactic(auto)]

mod give;
mod read;

pub use give::{gift_of, lower, raise};
pub use read::{level_sum, pixels_of};

// What an entry joins, what that costs, and what it gives to its group's two sums.
#[derive(Clone, Copy)]
pub struct Gift {
    pub number: u32,
    pub cost: u64,
    pub first: u64,
    pub second: u64,
}
