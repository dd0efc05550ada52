// One round on a table and shades that are known to be good: the grouping, by either search, and
// then the move.
//
// Calls; none refuses, and what one requires stands above it
//   plain_step   one round by the plain search        round.rt
//   short_step   one round by the shortened search
//   next_step    the same by either rule, with the first shades held, and with the sums of the
//                groups handed on
//
// Read next: specs/Lib.antt (what the words mean), proofs/Lib.antt (what is shown).

#![tactic(auto)]

mod round;

pub use round::{next_step, plain_step, short_step};

// What a round answers: its total, the shades that moved, the distances worked out.
#[derive(Clone, Copy)]
pub struct Stepped {
    pub total: u64,
    pub moved: u32,
    pub distances: u64,
}
