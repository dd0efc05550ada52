// The static library: what a C or Rust program links, as include/kohlenfloh.h declares it. Its
// archive is handed on as libkohlenfloh.a.
//
// Each export is the call of the same name of the crate kohlenfloh, with its clauses, and does no
// more than make it: a static library exports its own functions alone, and no crate stands on one.
//   kf_add_strip                                                                  add.rt
//   kf_plain_round, kf_short_round, kf_run, kf_run_jancey, kf_run_fixed           round.rt
//   kf_palette_from_shades, kf_palette_from_groups, kf_palette_from_groups_fixed  picture.rt
//   kf_map_strip, kf_read_picture
// What the words of the clauses mean and what is shown of the calls stands in the crate kohlenfloh.

#![tactic(auto)]

mod add;
mod picture;
mod round;

pub use add::kf_add_strip;
pub use picture::{
    kf_map_strip, kf_palette_from_groups, kf_palette_from_groups_fixed, kf_palette_from_shades,
    kf_read_picture,
};
pub use round::{kf_plain_round, kf_run, kf_run_fixed, kf_run_jancey, kf_short_round};
