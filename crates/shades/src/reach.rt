// How far a shade is from a point, alone, with the shade's number, and times a weight; and the
// nearer of two.
ghost use Rattle.std.specs.Prelude.{◌≡◌, ◌+◌, ◌*◌, ◌<◌, ◌≤◌, length};
ghost use Rattle.number.specs.{lesser_of};
ghost use Rattle.colour.specs.{Within, most_coordinate, most_distance, most_pixels};
ghost use Rattle.shades.specs.Places.{OnGrid, most_shades};
ghost use Rattle.shades.specs.Distances.{to_shade, pack};

use super::place::shade_at;
use colour::Point;

// The distance from `point` to shade `q`. Requires that the shade is there, and that point and
// coordinates are on the grid.
pub fn distance_to(shades: &[u32], q: usize, point: Point) -> u32
    requires { (3 * q + 2 < length shades.now) × OnGrid shades.now
        × Within most_coordinate point }
    ensures { (result ≡ to_shade shades.now point q) × (result ≤ most_distance) }
{
    colour::distance(point, shade_at(shades, q))
}

// The distance from `point` to shade `q`, and `q`, in one number. Requires the same, and q below
// 64.
pub fn packed(shades: &[u32], q: usize, point: Point) -> u32
    requires { (3 * q + 2 < length shades.now) × OnGrid shades.now
        × Within most_coordinate point × (q < most_shades) }
    ensures { (result ≡ pack shades.now point q)
        × (result < most_shades * most_distance + most_shades) }
{
    64 * distance_to(shades, q, point) + q as u32
}

// The lesser of `best` and the packed number of shade `q` from `point`: of two shades the nearer,
// or at a tie the one with the lower number. Requires the same.
pub fn nearer(shades: &[u32], best: u32, q: usize, point: Point) -> u32
    requires { (3 * q + 2 < length shades.now) × OnGrid shades.now
        × Within most_coordinate point × (q < most_shades) }
    ensures { result ≡ lesser_of best (pack shades.now point q) }
{
    best.min(packed(shades, q, point))
}

// What a colour of this weight costs at this distance. Requires a table's weight and a distance.
pub fn cost(weight: u32, distance: u32) -> u64
    requires { (weight ≤ most_pixels) × (distance ≤ most_distance) }
    ensures { result ≡ weight * distance }
{
    u64::from(weight) * u64::from(distance)
}
