// What is written of the pixels of a block once their shades are found: the shades' numbers, and
// how far the pixels are from them, channel by channel.
//
// Functions, for the crate above; none refuses, and what one requires stands above it
//   settle     stores numbers and adds up errors, pixel by pixel    settle.rt
//   +          the errors of two stretches together
//
// Read next: specs/Lib.antt (what the words mean), proofs/Lib.antt (which laws stand where).

#![tactic(auto)]

ghost use Rattle.std.specs.Prelude.{◌≡◌, ◌+◌, ◌≤◌};
ghost use Rattle.map_errors.specs.Missing.{plus_errors};

use std::ops::Add;

pub mod settle;

// The sums of squared level differences, one for each channel.
#[derive(Clone, Copy)]
pub struct Errors {
    pub red: u64,
    pub green: u64,
    pub blue: u64,
}

// The errors of two stretches together. Requires that the sums fit.
impl Add for Errors {
    type Output = Errors;

    ghost can_add = { λ a b. (a.red + b.red ≤ 18446744073709551615)
        × (a.green + b.green ≤ 18446744073709551615)
        × (a.blue + b.blue ≤ 18446744073709551615) };

    ghost add_gives = { λ a b r. r ≡ plus_errors a b };

    fn add(self, other: Errors) -> Errors {
        Errors {
            red: self.red + other.red,
            green: self.green + other.green,
            blue: self.blue + other.blue,
        }
    }
}
