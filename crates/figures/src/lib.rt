// The figures of a mapping: the mean square error and the three channel means, each made by two
// conversions without loss and one division.
//
// Calls; none refuses, and what one requires stands above it
//   mean_figure     error by pixels, none for no pixels          divide.rt
//   channel_means   the three channel means, zeros for no pixels
//
// Read next: specs/Lib.antt (what the words mean), proofs/Promises.antt (what is shown).

#![tactic(auto)]

mod divide;

pub use divide::{channel_means, mean_figure};

// The channel means; zeros for no pixels.
#[derive(Clone, Copy)]
pub struct Means {
    pub red: f64,
    pub green: f64,
    pub blue: f64,
}
