// The calls on a picture that is listed: its table, the run, the palette of its groups, and the
// mapping.
//
// Calls; none requires anything of its caller
//   work_picture   the calls on a picture. Refuses what the run   picture.rt
//                  refuses, and then what the mapping refuses.
// What they leave is a Work, all that the lines of a listing tell, or a refusal.
//
// Read next: specs/Lib.antt (what the words mean), proofs/Lib.antt (what is shown).
#![tactic(auto)]

use listing_lines::Summary;

mod picture;

pub use picture::work_picture;

// The round limit of a listed run.
pub const LISTED_LIMIT: usize = 20;

// What the calls leave: what the lines tell besides the shades; how many shades there are, and
// their palette; how many pixels, and their index picture. Zeros stand behind both.
#[derive(Clone, Copy)]
pub struct Work {
    pub summary: Summary,
    pub shades: usize,
    pub palette: [u8; 192],
    pub pixels: usize,
    pub index: [u8; 8192],
}
