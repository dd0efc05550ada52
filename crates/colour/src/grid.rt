// Where a colour stands on the grid, and how far apart two points are.
ghost use Rattle.std.specs.Prelude.{◌≡◌, ◌*◌, ◌≤◌};
ghost use Rattle.number.specs.{sq};
ghost use Rattle.colour.specs.Key.{most_level};
ghost use Rattle.colour.specs.Points.{
  most_coordinate,
  most_distance,
  sixteenth,
  colour_of,
  distance,
  Within,
};

use super::Point;
use super::key::{blue_of, green_of, red_of};

// A level as a coordinate, which counts sixteenths of a level. Requires a level of a byte.
fn sixteenth(level: u32) -> u32
    requires { level ≤ most_level }
    ensures { (result ≡ sixteenth level) × (result ≤ most_coordinate) }
{
    16 * level
}

// The point at which the colour with this key stands.
pub fn colour_of(key: u32) -> Point
    ensures { (result ≡ colour_of key) × Within most_coordinate result }
{
    Point {
        r: sixteenth(red_of(key)),
        g: sixteenth(green_of(key)),
        b: sixteenth(blue_of(key)),
    }
}

// The squared difference of two coordinates, which are required to be those of shades.
// The difference is signed, so that no test is made: a square has no sign.
pub fn square(a: u32, b: u32) -> u32
    requires { (a ≤ most_coordinate) × (b ≤ most_coordinate) }
    ensures { (result ≡ sq a b) × (result ≤ most_coordinate * most_coordinate) }
{
    let x = a as i32;
    let y = b as i32;
    let d = x - y;
    (d * d) as u32
}

// The distance of two points: the sum of three squared differences.
// Requires that no coordinate of either is above 4080.
pub fn distance(p: Point, q: Point) -> u32
    requires { Within most_coordinate p × Within most_coordinate q }
    ensures { (result ≡ distance p q) × (result ≤ most_distance) }
{
    square(p.r, q.r) + square(p.g, q.g) + square(p.b, q.b)
}

// A coordinate in 16 bits: a list of these is half as long, and twice as many are looked at in one
// operation. Requires that it is one of a shade.
pub fn short_of(x: u32) -> u16
    requires { x ≤ most_coordinate }
    ensures { (result ≡ x) × (result ≤ most_coordinate) }
{
    x as u16
}

// The squared difference of two coordinates in 16 bits, which are required to be those of shades.
// The difference stays in 16 bits, so that the product of two such numbers is asked for.
fn short_square(a: u16, b: u16) -> u32
    requires { (a ≤ most_coordinate) × (b ≤ most_coordinate) }
    ensures { (result ≡ sq a b) × (result ≤ most_coordinate * most_coordinate) }
{
    let x = a as i16;
    let y = b as i16;
    let d = i32::from(x - y);
    (d * d) as u32
}

// The distance of a point whose coordinates are in 16 bits to another point.
// Requires that no coordinate of either is above 4080.
pub fn distance_from(r: u16, g: u16, b: u16, p: Point) -> u32
    requires { Within most_coordinate (record { r = r; g = g; b = b })
        × Within most_coordinate p }
    ensures { (result ≡ distance (record { r = r; g = g; b = b }) p) × (result ≤ most_distance) }
{
    short_square(r, short_of(p.r)) + short_square(g, short_of(p.g)) + short_square(b, short_of(p.b))
}
