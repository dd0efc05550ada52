// Numbers and words written as bytes, one behind the other, into a lent buffer.
//
// Calls; none refuses, and what one requires stands above it
//   put_field   a number, without leading zeros, and the blank behind it   decimal.rt
//   put_last    the last number of a line, and its LF
//   put_word    some bytes as they are                                     word.rt
// Each answers the place behind what it wrote. What the text of a number is, is said in grammar.
//
// Read next: specs/Lib.antt (what the words mean), proofs/Promises.antt (what is shown).

#![tactic(auto)]

mod decimal;
mod word;

pub use decimal::{put_field, put_last};
pub use word::put_word;

// The most bytes of a number of 64 bits.
pub const MOST_DECIMAL: usize = 20;
