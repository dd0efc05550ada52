// The header of a P6 picture: "P6", then three numbers with white bytes and comments before each,
// then one white byte. What the numbers may be is tested by the crate p6.
//
// Calls; none requires anything of its caller
//   read_header   the header at the front of an input, or the place of the first byte that cannot
//                 stand there, which is the input's length where it ends early.   read.rt
// Its parts: white bytes and comments, and a number after them, in field.rt. White bytes and
// comments are the crate p6_gap's, digits and numbers the crate grammar's.
//
// Read next: specs/Lib.antt (what the words mean), proofs/Promises.antt (what is shown).

#![tactic(auto)]

mod field;
mod read;

pub use read::read_header;

// A header that was read: its numbers, and the first place after it.
#[derive(Clone, Copy)]
pub struct Header {
    pub width: u32,
    pub height: u32,
    pub depth: u32,
    pub start: usize,
}
