// The boundary: the calls that a C or Rust program makes, as include/kohlenfloh.h declares them.
// The crate kohlenfloh_c exports each, under the same name.
//
// Calls; none requires anything of its caller, and each answers 0 or its refusal's number, of these
//   kf_add_strip                  table::add_strip                           1, 2, 3    add.rt
//   kf_plain_round                lloyd::plain_round                         2, 4, 8, 7 round.rt
//   kf_short_round                lloyd::short_round                         2, 4, 8, 7, 9
//   kf_run                        lloyd::run                                 2, 4, 5, 6, 7
//   kf_run_jancey                 lloyd::run_jancey                          2, 4, 5, 6, 7
//   kf_run_fixed                  lloyd_fixed::run_fixed                     2, 10, 4, 5, 6, 7
//   kf_palette_from_shades        palette::palette_from_shades               4, 8, 7    picture.rt
//   kf_palette_from_groups        palette_groups::palette_from_groups        2, 4, 8, 7, 9
//   kf_palette_from_groups_fixed  palette_groups::palette_from_groups_fixed  2, 4, 8, 7, 9
//   kf_map_strip                  mapping::map_strip                         1, 10, 18, 11, 7
//   kf_read_picture               p6::read_picture                           12, 13, 14, 15
// A call's name is kf_ and that of the call beneath it. Only numbers, slices (a pointer and a
// length) and arrays of a fixed length (a pointer) cross. Each call has the contract of the one
// beneath it, with the answer's fields laid into an array, which the crate arrays does. The calls
// are passed on by name for crates too: unasked makes each of them.
//
// Read next: specs/Lib.antt (what the words mean), proofs/Promises.antt (what is shown).

#![tactic(auto)]

mod add;
mod picture;
mod round;

pub use add::kf_add_strip;
pub use picture::{
    kf_map_strip, kf_palette_from_groups, kf_palette_from_groups_fixed, kf_palette_from_shades,
    kf_read_picture,
};
pub use round::{kf_plain_round, kf_run, kf_run_fixed, kf_run_jancey, kf_short_round};
