// Where the slots of a block are few, a pixel's squared differences and number are told once for
// each slot, in four cells, and read from there for each pixel.
ghost use Rattle.std.specs.Prelude.{◌≡◌, ◌*◌, length};
ghost use Rattle.number.specs.{fill};
ghost use Rattle.map_slots.specs.{levels_of};
ghost use Rattle.map_errors.specs.{found_number};
ghost use Rattle.map_tell.specs.Telling.{cells_of, told_of, told_errors, Tellable, Told};

use map_errors::Errors;

// Tells of slots, in the front of `told`, the rest of which stays: how far the colour that a slot
// is linked to is from the shade found for it, channel by channel, and the shade's number. Requires
// that the links are slots, that the shades are there, and room.
pub fn tell(keys: &[u32], link: &[u8], best: &[u32], shades: &[u32], told: &mut [u32])
    requires { Tellable keys.now link.now best.now shades.now told.old (length link.now) }
    ensures { told.new
        ≡ fill (4 * length link.now) (cells_of (levels_of keys.now link.now)
        shades.now (found_number link.now best.now))
        told.old }
{
    for i in 0..link.len() {
        let slot = usize::from(link[i]);
        let key = keys[slot];
        let number = best[slot] % 64;
        let from = 3 * (number as usize);
        let at = 4 * i;
        told[at] = colour::square(colour::red_of(key), shades[from]);
        told[at + 1] = colour::square(colour::green_of(key), shades[from + 1]);
        told[at + 2] = colour::square(colour::blue_of(key), shades[from + 2]);
        told[at + 3] = number;
    }
}

// Stores the number told of each pixel, at its slot, which `which` tells, and adds up the squared
// differences told of them. Requires four cells, with a byte for the number, for each place of
// `index`.
pub fn add_told(which: &[u16], told: &[u32], index: &mut [u8]) -> Errors
    requires { Told which.now told.now (length index.old) }
    ensures index { index.new
        ≡ fill (length index.old) (told_of which.now told.now 3)
        index.old }
    ensures errors { result ≡ told_errors which.now told.now
        (length index.old) }
{
    let mut red = 0;
    let mut green = 0;
    let mut blue = 0;
    for i in 0..index.len() {
        let at = 4 * usize::from(which[i]);
        index[i] = told[at + 3] as u8;
        red += u64::from(told[at]);
        green += u64::from(told[at + 1]);
        blue += u64::from(told[at + 2]);
    }
    Errors { red, green, blue }
}
