// Streaks of equal pixels, and a strip's pixels gathered as streaks.
// A streak is one number, 256 * key + (pixels - 1), so that any u32 is a streak and sorting moves
// four bytes.
//
// Functions, for the crates above (each says what it requires)
//   gather::gather         pixels of a strip, as streaks
//   streak::streak_key     the key of a streak
//   streak::streak_pixels  the pixels of a streak
//
// Read next: specs/Lib.antt (what the words mean), proofs/Lib.antt (which laws stand where).
#![tactic(auto)]

pub mod gather;
pub mod streak;
