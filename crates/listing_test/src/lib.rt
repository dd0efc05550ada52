// The test of a picture that is to be listed.
//
// Calls; it requires nothing
//   picture_refusal   the tests of a picture.   test.rt
//                     Refuses 12 BAD HEADER, 13 BAD SIZE, also for more than 8,192 pixels,
//                     14 BAD DEPTH, 15 BAD RASTER, in this order.
//
// Read next: specs/Lib.antt (what the words mean), proofs/Lib.antt (what is shown).

#![tactic(auto)]

mod test;

pub use test::picture_refusal;

// The most pixels of a picture that is listed.
pub const MOST_LISTED: u64 = 8192;
