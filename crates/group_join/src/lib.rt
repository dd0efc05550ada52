// One entry of a table joins a group, and the sums of the groups follow it. The sums stand in 128
// numbers that are lent, at 2q and 2q + 1 those of group q.
//
// Calls; none refuses, and what one requires stands above it
//   join   entry i joins group q, and the sums follow   entry.rt
// Sums that are taken anew are over the entries before i, and then over i too; those that go on
// from the former groups are over all entries, and what entry i gives goes along.
// What a grouping answers, whichever search finds the shades, is `Regrouped`.
//
// Read next: specs/Lib.antt (what the words mean), proofs/Lib.antt (what is shown).

#![tactic(auto)]

mod entry;

pub use entry::join;

// How the sums follow the entries of a grouping: taken anew, from zeros, or onward, from those of
// the former groups.
#[derive(Clone, Copy)]
pub enum Follow {
    Anew,
    Onward,
}

// The total of a grouping, and the distances worked out.
#[derive(Clone, Copy)]
pub struct Regrouped {
    pub total: u64,
    pub distances: u64,
}
