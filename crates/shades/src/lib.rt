// Shades in a list of coordinates: reading and storing one, the distance to one, distance and
// number in one, and the tests of lent coordinates.
//
// Calls; none refuses, and what one requires stands above it
//   set_all           the front of a list to one value                 set.rt
//   shade_at          reads a shade                                    place.rt
//   put_shade         stores a shade
//   distance_to       from a point to a shade                          reach.rt
//   packed            64 times that distance plus the shade's number
//   nearer            the lesser of such a number and that of a shade
//   cost              weight times distance
//   bad_triples       numbers that are not triples, or too many        test.rt
//   bad_coordinates   the test of 4 BAD COUNT for lent coordinates
//   bad_centre        the test of 8 BAD CENTRE
//
// Read next: specs/Lib.antt (what the words mean), proofs/Promises.antt (what is shown of them).

#![tactic(auto)]

mod place;
mod reach;
mod set;
mod test;

pub use place::{put_shade, shade_at};
pub use reach::{cost, distance_to, nearer, packed};
pub use set::set_all;
pub use test::{bad_centre, bad_coordinates, bad_triples};

// The most shades.
pub const MOST_SHADES: usize = 64;

// Their coordinates.
pub const MOST_COORDINATES: usize = 192;
