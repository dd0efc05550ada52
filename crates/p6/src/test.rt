// The tests of a header's numbers and of the raster's length.
ghost use Rattle.std.specs.Prelude.{◌≡◌, ◌*◌, ◌≤◌};
ghost use Rattle.p6.specs.Refusals.{most_side, bad_side, bad_size, bad_raster};

use super::MOST_SIDE;

// Whether a side is out of range.
fn bad_side(side: u32) -> bool
    ensures { result ≡ bad_side side }
{
    if side < 1 {
        return true;
    }
    MOST_SIDE < side
}

// The pixels of two sides, which are required to be in range.
pub fn area(width: u32, height: u32) -> u64
    requires { (width ≤ most_side) × (height ≤ most_side) }
    ensures { result ≡ width * height }
{
    u64::from(width) * u64::from(height)
}

// Whether sides or product are out of range: the test of 13 BAD SIZE.
pub fn bad_size(width: u32, height: u32) -> bool
    ensures { result ≡ bad_size width height }
{
    if bad_side(width) {
        return true;
    }
    if bad_side(height) {
        return true;
    }
    colour::MOST_PIXELS < area(width, height)
}

// Whether this many raster bytes are fewer or more than the sides ask for: the test of 15 BAD
// RASTER. Requires sides in range.
pub fn bad_raster(width: u32, height: u32, bytes: usize) -> bool
    requires { (width ≤ most_side) × (height ≤ most_side) }
    ensures { result ≡ bad_raster width height bytes }
{
    bytes as u64 != 3 * area(width, height)
}
