// P6 pictures: a header, which may have comments, and after it three raster bytes a pixel.
//
// Calls; none requires anything of its caller
//   read_picture   width, height and where the raster begins.   call.rt
//                  Refuses 12 BAD HEADER, with the offset, 13 BAD SIZE, 14 BAD DEPTH,
//                  15 BAD RASTER, in this order.
//   raster_of      the raster as that stretch of the input, uncopied; an empty one for a picture
//                  that read_picture refuses.
// For the crates above, with what is required above each
//   bad_size       the test of 13 BAD SIZE                      test.rt
//   area           the pixels of two sides
// The header is read by the crate p6_header; the tests stand in test.rt.
//
// Read next: specs/Lib.antt (what the words mean), proofs/Promises.antt (what is shown).

#![tactic(auto)]

ghost use Rattle.std.specs.Prelude.{◌≡◌};

mod call;
mod test;

pub use call::{raster_of, read_picture};
use refusal::Refusal;
pub use test::{area, bad_size};

// The longest side of a picture.
pub const MOST_SIDE: u32 = 16384;

// The only depth.
pub const DEPTH: u32 = 255;

// A picture that is read: width, height and the first place of the raster.
#[derive(Clone, Copy)]
pub struct Picture {
    pub width: u32,
    pub height: u32,
    pub start: usize,
}

// Why there is none: the refusal, and for BAD HEADER the offset of the first byte that cannot stand
// there, 0 for another.
#[derive(Clone, Copy, Debug, PartialEq, Eq)]
pub struct Fault {
    pub refusal: Refusal,
    pub offset: usize,
}

impl From<Fault> for Refusal {
    ghost from_gives = { λ fault refusal. refusal ≡ fault.refusal };

    fn from(fault: Fault) -> Refusal {
        fault.refusal
    }
}
