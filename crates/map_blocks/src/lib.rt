// The strip mapper: every pixel of a strip gets the number of its nearest palette entry, in whole
// levels, and the squared differences are added up for each channel.
//
// Calls; none refuses, and what one requires stands above it
//   map_pixels   maps a strip against a palette of bytes     strip.rt
// The palette is widened to coordinates, and the strip goes block after block through the crate
// `map_block`.
//
// Read next: specs/Lib.antt (what the words mean), proofs/Promises.antt (what is shown).

#![tactic(auto)]

mod strip;

pub use strip::map_pixels;
