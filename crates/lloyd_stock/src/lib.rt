// Shades fixed from stock: levels handed in as bytes, three for each. Whether they are a list of
// shades, where they stand, and how many colours of a table they leave.
//
// Calls; none refuses, and what one requires stands above it
//   bad_fixed      the test of 10 BAD PALETTE for a fixed list          test.rt
//   lay_stock      the levels in sixteenths, into the front of a list   lay.rt
//   colours_left   the used colours that are unlike every fixed shade   left.rt
// The last is what 5 FEW COLOURS of a run with fixed shades compares with its free shades. It looks
// each fixed shade up among the keys and goes over no table.
//
// Read next: specs/Lib.antt (what the words mean), proofs/Promises.antt (what is shown).

#![tactic(auto)]

mod lay;
mod left;
mod test;

pub use lay::lay_stock;
pub use left::colours_left;
pub use test::bad_fixed;

// The most bytes of a fixed list: three for each of 63 shades.
pub const MOST_FIXED: usize = 189;
