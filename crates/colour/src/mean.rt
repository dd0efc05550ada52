// The rounded mean of a group, on one coordinate.
ghost use Rattle.std.specs.Prelude.{◌≡◌, ◌*◌, ◌<◌, ◌≤◌};
ghost use Rattle.number.specs.{rounded_mean};
ghost use Rattle.colour.specs.Points.{most_coordinate, most_pixels};

// The rounded mean of a group with this pixel count and this coordinate sum: halves go up.
// Requires that the group is not empty, has at most 16,777,216 pixels, and that its coordinate sum
// is at most 4080 for each pixel.
pub fn rounded_mean(pixels: u64, coords: u64) -> u32
    requires { (0 < pixels) × (pixels ≤ most_pixels) × (coords ≤ pixels * most_coordinate) }
    ensures { (result ≡ rounded_mean pixels coords) × (result ≤ most_coordinate) }
{
    ((2 * coords + pixels) / (2 * pixels)) as u32
}
