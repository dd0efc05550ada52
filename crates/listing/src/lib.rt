// The listing: from the count line and a P6 picture to the lines that tell its shades.
//
// Calls; none requires anything of its caller
//   list_shades   the listing of an input, as bytes.   call.rt
//                 A refusal is the one line `refused N`; the tests, in this order: 4 BAD COUNT for
//                 a malformed count line, 13 BAD SIZE for an input over 65,536 bytes, the
//                 picture's own, 12, 13 (also for more than 8,192 pixels), 14, 15, the run's, 4
//                 and 5, and the mapping's, 18 TWIN SHADE where two shades have one entry.
// First every call is made: the tests of the count line in call.rt, those of a picture in the crate
// listing_test, table, run, palette and mapping in listing_work. What they leave is a Work, which
// has all that the lines tell, or a refusal. Then the crate listing_lines writes it.
//
// Read next: specs/Lib.antt (what the words mean), proofs/Promises.antt (what is shown).

#![tactic(auto)]

mod call;

pub use call::list_shades;

// The most bytes of an input.
pub const MOST_INPUT: usize = 65536;

// The bytes of a listing, zeros behind them, and how many they are.
#[derive(Clone, Copy)]
pub struct Listing {
    pub length: usize,
    pub text: [u8; 8448],
}
