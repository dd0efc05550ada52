// The rounded mean of a whole table, from its sums.
ghost use Rattle.std.specs.Prelude.{◌≡◌, ◌*◌, ◌≤◌, ◌<◌};
ghost use Rattle.colour.specs.{Within, most_coordinate, most_level, most_pixels};
ghost use Rattle.starts.specs.Means.{mean_by_sums};

use colour::Point;

// The rounded mean of so many pixels with these channel sums in whole levels. Requires a pixel, no
// more of them than a table has, and level 255 for each at the most.
pub fn mean_of(pixels: u64, red: u64, green: u64, blue: u64) -> Point
    requires { (0 < pixels) × (pixels ≤ most_pixels) × (red ≤ most_level * pixels)
        × (green ≤ most_level * pixels) × (blue ≤ most_level * pixels) }
    ensures { (result ≡ mean_by_sums pixels red green blue) × Within most_coordinate result }
{
    Point {
        r: colour::rounded_mean(pixels, 16 * red),
        g: colour::rounded_mean(pixels, 16 * green),
        b: colour::rounded_mean(pixels, 16 * blue),
    }
}
