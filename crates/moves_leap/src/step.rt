// Jancey's step, from the pixel count and the coordinate sum of a group, in whole numbers.
ghost use Rattle.std.specs.Prelude.{◌≡◌, ◌*◌, ◌<◌, ◌≤◌};
ghost use Rattle.number.specs.{gap, past_mean, leap};
ghost use Rattle.colour.specs.{most_coordinate, most_pixels};

use colour::MOST_COORDINATE;

// Nine fifths of the way from `z` to the mean, z + 9/5 (coords / pixels - z), to the nearest whole
// number, halves up; 0 where that lies below 0. Requires what colour::rounded_mean does.
fn past_mean(pixels: u64, coords: u64, z: u32) -> u32
    requires { (0 < pixels) × (pixels ≤ most_pixels) × (coords ≤ pixels * most_coordinate) }
    ensures { result ≡ past_mean pixels coords z }
{
    let up = 9 * coords;
    let down = 4 * (pixels * u64::from(z));
    ((2 * up.saturating_sub(down) + 5 * pixels) / (10 * pixels)) as u32
}

// How far `z` is from the mean, times the pixels. Requires a table's pixel count.
fn off_mean(pixels: u64, coords: u64, z: u32) -> u64
    requires { pixels ≤ most_pixels }
    ensures { result ≡ gap coords (z * pixels) }
{
    coords.abs_diff(u64::from(z) * pixels)
}

// Where a coordinate at `z` goes. Requires what colour::rounded_mean does: a group that is not
// empty, has at most 16,777,216 pixels, and a coordinate sum of at most 4080 for each.
pub fn leap(pixels: u64, coords: u64, z: u32) -> u32
    requires { (0 < pixels) × (pixels ≤ most_pixels) × (coords ≤ pixels * most_coordinate) }
    ensures { result ≡ leap most_coordinate pixels coords z }
{
    let far = past_mean(pixels, coords, z);
    let place = far.min(MOST_COORDINATE);
    if off_mean(pixels, coords, place) < off_mean(pixels, coords, z) {
        place
    } else {
        colour::rounded_mean(pixels, coords)
    }
}
