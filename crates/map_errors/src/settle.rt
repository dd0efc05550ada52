// What a block's search found: the numbers go to the index picture, and the squared differences are
// added up.
ghost use Rattle.std.specs.Prelude.{◌≡◌, ◌*◌, ◌≤◌, length};
ghost use Rattle.number.specs.{fill, sq};
ghost use Rattle.colour.specs.{most_coordinate};
ghost use Rattle.map_errors.specs.Missing.{pixel_at, misses_of};
ghost use Rattle.map_errors.specs.Finding.{Found, found_number};

use super::Errors;

// The squared difference of a level and a coordinate, which is required to be that of a shade.
fn miss(level: u8, coordinate: u32) -> u64
    requires { coordinate ≤ most_coordinate }
    ensures { (result ≡ sq level coordinate) × (result ≤ most_coordinate * most_coordinate) }
{
    u64::from(colour::square(u32::from(level), coordinate))
}

// Stores the number found for each pixel of `strip`, at its slot, which `which` tells, and adds up
// how far the pixels are from their `shades`, channel by channel. Requires three bytes and a number
// found for each place of `index`.
pub fn settle(strip: &[u8], which: &[u16], shades: &[u32], best: &[u32], index: &mut [u8]) -> Errors
    requires { Found strip.now which.now shades.now best.now (length index.old) }
    ensures index { index.new
        ≡ fill (length index.old) (found_number which.now best.now)
        index.old }
    ensures errors { result ≡ misses_of (pixel_at strip.now) shades.now
        (found_number which.now best.now) (length index.old) }
{
    let mut red = 0;
    let mut green = 0;
    let mut blue = 0;
    for i in 0..index.len() {
        let number = best[usize::from(which[i])] % 64;
        index[i] = number as u8;
        let from = 3 * i;
        let at = 3 * (number as usize);
        red += miss(strip[from], shades[at]);
        green += miss(strip[from + 1], shades[at + 1]);
        blue += miss(strip[from + 2], shades[at + 2]);
    }
    Errors { red, green, blue }
}
