// The gap between two parts of a P6 header: white bytes and comments, as many as there are. A
// comment is `#` and all bytes up to and including the next LF or CR; it counts as one white byte.
//
// For the crates above, with what is required above each
//   is_white      whether a byte is white                                    white.rt
//   gap_end       where white bytes and comments from a place on end         gap.rt
// A comment stands in comment.rt.
//
// Read next: specs/Lib.antt (what the words mean), proofs/Promises.antt (what is shown).

#![tactic(auto)]

mod comment;
mod gap;
mod white;

pub use gap::gap_end;
pub use white::is_white;
