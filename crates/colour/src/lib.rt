// Colours, and points in sixteenths of a level: where a colour stands, how far apart two points
// are, and the rounded mean of a group.
//
// Calls; none refuses, and what one requires stands above it
//   key_of         the key of a colour's three bytes         key.rt
//   key_at         the key of the colour whose bytes stand at a place of a list
//   red_of         the levels of a key's colour, one call a channel
//   green_of
//   blue_of
//   colour_of      the point at which a key's colour stands  grid.rt
//   square         the squared difference of two coordinates
//   distance       the sum of three squared differences
//   short_of       a coordinate in 16 bits, for lists
//   distance_from  the distance from a point in such lists
//   rounded_mean   a group's mean coordinate, halves up      mean.rt
//
// Read next: specs/Lib.antt (what the words mean), proofs/Promises.antt (what is shown of them).

#![tactic(auto)]

mod grid;
mod key;
mod mean;

pub use grid::{colour_of, distance, distance_from, short_of, square};
pub use key::{blue_of, green_of, key_at, key_of, red_of};
pub use mean::rounded_mean;

// The greatest key, that of the colour (255, 255, 255).
pub const MOST_KEY: u32 = 16777215;

// The greatest coordinate of a shade.
pub const MOST_COORDINATE: u32 = 4080;

// The most pixels of a table, and so of a group.
pub const MOST_PIXELS: u64 = 16777216;

// The greatest sum of a channel's levels: 255 for each of the most pixels.
pub const MOST_SUM: u64 = 4278190080;

// A point of the grid: three coordinates in sixteenths of a level. A shade is one, and a colour
// stands at one.
#[derive(Clone, Copy, PartialEq, Eq)]
pub struct Point {
    pub r: u32,
    pub g: u32,
    pub b: u32,
}
