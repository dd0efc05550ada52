// The run with shades fixed from stock: they never move, and the others are found around them.
//
// Calls; none requires anything of its caller
//   run_fixed       starting shades from the fixed ones on, and shortened rounds.   call.rt
//                   Refuses 2 BAD TABLE, 10 BAD PALETTE, 4 BAD COUNT, 5 FEW COLOURS, 6 BAD LIMIT,
//                   7 SHORT ROOM, in this order.
// A refusal is the error of the answer, and writes nothing. The order of the tests stands in
// order.rt, the tests themselves in table_test, lloyd_stock, lloyd_tests and lloyd_refusal; the
// work is done by the crate rounds.
//
// Read next: specs/Lib.antt (what the words mean), proofs/Promises.antt (what is shown).

#![tactic(auto)]

mod call;
mod order;

pub use call::run_fixed;
