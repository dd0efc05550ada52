// The lines of a listing, written into a lent buffer from finished values.
//
// Calls; none refuses, and what one requires stands above it
//   put_refusal   the one line of a refusal                              line.rt
//   put_lines     line 1, a line for each shade, and the last line       text.rt
// Each writes from the buffer's front on and answers the place behind what it wrote. put_lines
// counts the pixels of every shade (count.rt) before its first byte.
//
// Read next: specs/Lib.antt (what the words mean), proofs/Promises.antt (what is shown).

#![tactic(auto)]

mod count;
mod line;
mod text;

pub use line::put_refusal;
pub use text::put_lines;

// What a listing tells besides its shades: table colours, pixels, rounds, settled as 1 or 0, final
// total and distances, which stand in line 1, and the mapping error, which is the last line.
#[derive(Clone, Copy)]
pub struct Summary {
    pub used: u64,
    pub pixels: u64,
    pub rounds: u64,
    pub settled: u64,
    pub total: u64,
    pub distances: u64,
    pub error: u64,
}
