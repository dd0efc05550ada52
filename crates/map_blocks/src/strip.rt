// A whole strip, block after block.
ghost use Rattle.std.specs.Prelude.{◌≡◌, ◌*◌, ◌<◌, ◌≤◌, length, get_or};
ghost use Rattle.number.specs.{fill};
ghost use Rattle.colour.specs.{most_pixels};
ghost use Rattle.shades.specs.{Shades};
ghost use Rattle.map_errors.specs.{pixel_at, misses_of};
ghost use Rattle.map_block.specs.{nearest_to};
ghost use Rattle.map_blocks.specs.Meaning.{entry_for, errors_of};
ghost use Rattle.map_blocks.specs.Asking.{Mappable};

use map_block::{Scratch, map_block};
use map_errors::Errors;

// Maps a strip to the first `count` of `shades`. Requires some shades on the grid, three bytes for
// each place of `index`, and at most 16,777,216 pixels.
fn map_blocks(strip: &[u8], shades: &[u32], count: usize, index: &mut [u8]) -> Errors
    requires { (length strip.now ≡ 3 * length index.old) × Shades count shades.now
        × (0 < count) × (length index.old ≤ most_pixels) }
    ensures index { index.new
        ≡ fill (length index.old)
        (nearest_to shades.now count strip.now) index.old }
    ensures errors { result
        ≡ misses_of (pixel_at strip.now) shades.now
        (nearest_to shades.now count strip.now)
        (length index.old) }
{
    let n = index.len();
    let mut scratch = Scratch::new();
    let mut errors = Errors {
        red: 0,
        green: 0,
        blue: 0,
    };
    // Not by `chunks_mut`: of what it lent a proof knows the length, and not what is written there.
    for i in (0..n).step_by(1024) {
        let end = n.min(i + 1024);
        let block = map_block(
            &strip[3 * i..3 * end],
            shades,
            count,
            &mut scratch,
            &mut index[i..end],
        );
        errors = errors + block;
    }
    errors
}

// The bytes of a palette as coordinates, in front of `wide`, the rest of which stays. Requires
// room.
fn widen(palette: &[u8], wide: &mut [u32])
    requires { length palette.now ≤ length wide.old }
    ensures { wide.new
        ≡ fill (length palette.now) (λ i. get_or palette.now i 0)
        wide.old }
{
    for (i, level) in palette.iter().enumerate() {
        wide[i] = u32::from(*level);
    }
}

// Maps a strip against a palette: each place of `index` gets the number of its pixel's nearest
// entry, and the errors are answered. Requires a palette of 1 to 64 entries, three bytes for each
// place of `index`, and at most 16,777,216 pixels.
pub fn map_pixels(strip: &[u8], palette: &[u8], index: &mut [u8]) -> Errors
    requires { Mappable strip.now palette.now (length index.old) }
    ensures index { index.new
        ≡ fill (length index.old) (entry_for palette.now strip.now)
        index.old }
    ensures errors { result ≡ errors_of palette.now strip.now
        (length index.old) }
{
    let mut wide = [0u32; 192];
    widen(palette, &mut wide);
    map_blocks(strip, &wide, palette.len() / 3, index)
}
