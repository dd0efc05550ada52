// The palette of a table's groups: for each shade the mean of its group in whole levels, rounded
// once; shades that are fixed keep their own levels.
//
// Calls; none requires anything of its caller
//   palette_from_groups         the palette of the groups that the members tell.   call.rt
//                               Refuses 2 BAD TABLE, 4 BAD COUNT, 8 BAD CENTRE, 7 SHORT ROOM,
//                               9 BAD MEMBER, in this order.
//   palette_from_groups_fixed   the same where the first shades are fixed
// A refused call answers its refusal and writes nothing. The tests stand in table_test, shades and
// lloyd_tests; the work is done by the crate palette_means.
//
// Read next: specs/Lib.antt (what the words mean), proofs/Promises.antt (what is shown).

#![tactic(auto)]

mod call;

pub use call::{palette_from_groups, palette_from_groups_fixed};
