// Sums of levels, two in one number of 64 bits: what an entry of a table has of red and green, and
// of blue and pixels; and the two sums taken apart.
//
// Calls; none refuses, and what one requires stands above it
//   red_green     weight times red and green level, in one    pair.rt
//   blue_pixels   weight times blue level, and the weight
//   high, low     the upper and the lower sum
//
// Read next: specs/Lib.antt (what the words mean), proofs/Lib.antt (what is shown).

#![tactic(auto)]

mod pair;

pub use pair::{blue_pixels, high, low, red_green};
