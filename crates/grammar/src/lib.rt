// Strings of bytes, whatever they are the text of: digits, spans of bytes of one kind, numbers in
// decimal, and the first byte of an input that cannot stand where it does, for any language.
//
// Calls; none requires anything of its caller
//   byte_at    the byte at a place, 0 past the end           byte.rt
//   number     1 to 5 digits at a place, or where it failed  decimal.rt
// The text of a number is a definition here, `decimal_text`; the crate texts puts it into a buffer.
//
// Of languages there are laws and no function: an input has at most one first wrong byte, and a
// machine that reads byte by byte, and every state of which can be completed to a word, dies there.
// A crate with a language of its own writes such a machine, or one of items, and cites these laws.
//
// Read next: specs/Lib.antt (what the words mean), proofs/Promises.antt (what is shown).

#![tactic(auto)]

mod byte;
mod decimal;

pub use byte::byte_at;
pub use decimal::number;

// The most digits of a number that is read.
pub const MOST_DIGITS: usize = 5;

// A number that was read, and where it ended.
#[derive(Clone, Copy)]
pub struct Numeral {
    pub value: u32,
    pub next: usize,
}
