// The index picture: a strip mapped to a palette in its own stretch, with error and figures.
//
// Calls; none requires anything of its caller
//   map_strip   maps a strip into the stretch of the index picture that begins at a place. call.rt
//               Refuses 1 BAD STRIP, 10 BAD PALETTE, 18 TWIN SHADE, 11 MANY PIXELS, 7 SHORT ROOM,
//               in this order.
// A refused call answers its refusal, with 18 the twins too, and writes nothing. The pixels are
// mapped by the crate map_blocks, the figures made by the crate figures, the twins found by the
// crate palette_twins.
//
// Read next: specs/Lib.antt (what the words mean), proofs/Promises.antt (what is shown).
#![tactic(auto)]

ghost use Rattle.std.specs.Prelude.{◌≡◌, None};

use figures::Means;
use map_errors::Errors;
use palette_twins::Twins;
use refusal::Refusal;

mod call;

pub use call::map_strip;

// The answer of a mapping: the error, and that of each channel; the mean square error, none for no
// pixels, and the mean of each channel.
#[derive(Clone, Copy)]
pub struct Mapped {
    pub error: u64,
    pub errors: Errors,
    pub mean: Option<f64>,
    pub means: Means,
}

// Why a strip is not mapped: the refusal, and with TWIN SHADE the numbers of the twins.
#[derive(Clone, Copy, Debug, PartialEq, Eq)]
pub struct Unmapped {
    pub refusal: Refusal,
    pub twins: Option<Twins>,
}

// A refusal that tells no twins.
impl From<Refusal> for Unmapped {
    ghost from_gives = { λ refusal unmapped.
        unmapped ≡ record { refusal = refusal; twins = None } };

    fn from(refusal: Refusal) -> Unmapped {
        Unmapped {
            refusal,
            twins: None,
        }
    }
}
