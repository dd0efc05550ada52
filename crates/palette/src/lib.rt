// The palette: three bytes for each shade, in whole levels.
//
// Calls; none requires anything of its caller
//   palette_from_shades   the palette of some shades.   call.rt
//                         Refuses 4 BAD COUNT, 8 BAD CENTRE, 7 SHORT ROOM, in this order.
//   bad_palette           the test behind 10 BAD PALETTE. Refuses nothing.
// A refused call answers its refusal and writes nothing. For other crates level_of gives the level
// of one coordinate; what it requires stands above it.
//
// Read next: specs/Lib.antt (what the words mean), proofs/Promises.antt (what is shown).

#![tactic(auto)]

mod call;

pub use call::{bad_palette, level_of, palette_from_shades};
