// One block of pixels, mapped: each pixel gets the number of its nearest shade, and the squared
// differences are added up for each channel.
//
// Calls; none refuses, and what one requires stands above it
//   map_block      maps a block to some shades   block.rt
//   Scratch::new   what it works in
// Crate `map_slots` gathers the pixels of a block in slots, and `map_find` searches these as the
// plain round does, on levels in place of sixteenths. Where the slots are few (few.rt) those with
// one colour are joined (crate `map_join`), and numbers and errors are told slot by slot (crate
// `map_tell`); where they are many (block.rt) they are settled pixel by pixel (crate `map_errors`).
//
// Read next: specs/Lib.antt (what the words mean), proofs/Lib.antt (what is shown).

#![tactic(auto)]

ghost use Rattle.std.specs.Prelude.{◌≡◌, replicate};

mod block;
mod few;

pub use block::map_block;

// What a block is mapped in: places for the pixels of a block, which are at most 1024, and for
// their slots.
#[derive(Drop)]
pub struct Scratch {
    keys: [u32; 1024],
    which: [u16; 1024],
    reds: [u16; 1024],
    greens: [u16; 1024],
    blues: [u16; 1024],
    best: [u32; 1024],
}

impl Scratch {
    // All places are 0.
    pub fn new() -> Scratch
        ensures keys { (result.keys ≡ replicate 1024 0) × (result.which ≡ replicate 1024 0) }
        ensures levels { (result.reds ≡ replicate 1024 0) × (result.greens ≡ replicate 1024 0)
            × (result.blues ≡ replicate 1024 0) }
        ensures best { result.best ≡ replicate 1024 0 }
    {
        Scratch {
            keys: [0; 1024],
            which: [0; 1024],
            reds: [0; 1024],
            greens: [0; 1024],
            blues: [0; 1024],
            best: [0; 1024],
        }
    }
}
