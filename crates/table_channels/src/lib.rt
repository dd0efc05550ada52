// The levels of pixels, added up channel by channel: of one pixel, of streaks, and of two lots of
// pixels together.
//
// Calls, for the crates above (each says what it requires)
//   pixel_sums    the levels of one pixel
//   streak_sums   the levels of the pixels in streaks
//   a + b         the sums of two lots of pixels together
//
// Read next: specs/Lib.antt (what the words mean), proofs/Lib.antt (what is shown).
#![tactic(auto)]

mod channels;

pub use channels::{pixel_sums, streak_sums};

// The sums of the three channels, in whole levels.
#[derive(Clone, Copy)]
pub struct ChannelSums {
    pub red: u64,
    pub green: u64,
    pub blue: u64,
}
