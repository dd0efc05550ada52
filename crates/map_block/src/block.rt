// A block of pixels: gathered, and then mapped by its slots, be they few or many.
ghost use Rattle.std.specs.Prelude.{◌≡◌, ◌*◌, ◌<◌, ◌≤◌, length};
ghost use Rattle.number.specs.{fill};
ghost use Rattle.shades.specs.{Shades};
ghost use Rattle.map_errors.specs.{pixel_at, misses_of};
ghost use Rattle.map_block.specs.Blocks.{nearest_to};
ghost use Rattle.map_slots.specs.{most_slots, pixel_key, Gathered};

use super::Scratch;
use super::few::map_few;
use map_errors::Errors;
use map_errors::settle::settle;
use map_find::search_slots;
use map_slots::gather;

// Maps a block of pixels that are gathered in the first `slots` slots of `scratch` to the first
// `count` of `shades`. Requires that they are, some shades on the grid, three bytes for each place
// of `index`, and at most 1024 pixels.
fn map_many(
    strip: &[u8],
    scratch: &mut Scratch,
    slots: usize,
    shades: &[u32],
    count: usize,
    index: &mut [u8],
) -> Errors
    requires { (length strip.now ≡ 3 * length index.old) × Shades count shades.now
        × (0 < count) × (length index.old ≤ most_slots)
        × Gathered (pixel_key strip.now) (length index.old) scratch.old.keys
        scratch.old.which slots }
    ensures index { index.new
        ≡ fill (length index.old)
        (nearest_to shades.now count strip.now) index.old }
    ensures errors { result
        ≡ misses_of (pixel_at strip.now) shades.now
        (nearest_to shades.now count strip.now)
        (length index.old) }
{
    search_slots(
        &scratch.keys[..slots],
        shades,
        count,
        &mut scratch.reds,
        &mut scratch.greens,
        &mut scratch.blues,
        &mut scratch.best,
    );
    settle(strip, &scratch.which, shades, &scratch.best, index)
}

// Maps a block of pixels to the first `count` of `shades`, in `scratch`. Requires some shades on
// the grid, three bytes for each place of `index`, and at most 1024 pixels.
pub fn map_block(
    strip: &[u8],
    shades: &[u32],
    count: usize,
    scratch: &mut Scratch,
    index: &mut [u8],
) -> Errors
    requires { (length strip.now ≡ 3 * length index.old) × Shades count shades.now
        × (0 < count) × (length index.old ≤ most_slots) }
    ensures index { index.new
        ≡ fill (length index.old)
        (nearest_to shades.now count strip.now) index.old }
    ensures errors { result
        ≡ misses_of (pixel_at strip.now) shades.now
        (nearest_to shades.now count strip.now)
        (length index.old) }
{
    let slots = gather(strip, &mut scratch.keys, &mut scratch.which);
    if slots <= 256 {
        map_few(scratch, slots, shades, count, index)
    } else {
        map_many(strip, scratch, slots, shades, count, index)
    }
}
