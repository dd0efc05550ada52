// The twins of a palette: two equal entries, of which a mapping would leave the higher without a
// pixel.
//
// Calls; none requires anything of its caller
//   twin_of   the test behind 18 TWIN SHADE. Refuses nothing.   find.rt
// It answers the pair with the smallest higher number; none where all entries differ.
//
// Read next: specs/Lib.antt (what the words mean), proofs/Promises.antt (what is shown).

#![tactic(auto)]

mod find;

pub use find::twin_of;

// The numbers of two equal entries.
#[derive(Clone, Copy, Debug, PartialEq, Eq)]
pub struct Twins {
    pub lower: usize,
    pub higher: usize,
}
