// Records and answers in arrays: what crosses the boundary beside numbers and slices.
//
// Calls, for the crate above; none refuses or requires anything
//   record_in         the record in an array                               record.rt
//   record_left       the record that an add leaves, as an array
//   round_numbers     the answer of a round                                round.rt
//   run_numbers       that of a run, its shades apart
//   run_shades        the shades of a run
//   map_numbers       the errors of a mapping, whether it has a mean, and  picture.rt
//                     the twins
//   map_figures       its figures: the mean, and those of R, G and B
//   picture_numbers   the answer of a reading
//
// Read next: specs/Lib.antt (what the words mean), proofs/Lib.antt (what is shown).

#![tactic(auto)]

mod picture;
mod record;
mod round;

pub use picture::{map_figures, map_numbers, picture_numbers};
pub use record::{record_in, record_left};
pub use round::{round_numbers, run_numbers, run_shades};
