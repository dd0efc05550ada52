// The tests of lent coordinates, and of triples of numbers.
ghost use Rattle.std.specs.Prelude.{◌≡◌, ◌≤◌, length};
ghost use Rattle.shades.specs.Places.{most_coordinates};
ghost use Rattle.shades.specs.Tests.{bad_triples, bad_coordinates, bad_centre};

use super::MOST_COORDINATES;

// Whether this many numbers are not 3 to `most`, or not a multiple of 3.
pub fn bad_triples(numbers: usize, most: usize) -> bool
    ensures { result ≡ bad_triples most numbers }
{
    !(3..=most).contains(&numbers) || numbers % 3 != 0
}

// Whether this many coordinates are no shades: the test of 4 BAD COUNT.
pub fn bad_coordinates(coordinates: usize) -> bool
    ensures { result ≡ bad_coordinates coordinates }
{
    bad_triples(coordinates, MOST_COORDINATES)
}

// Whether a coordinate is above 4080: the test of 8 BAD CENTRE. Requires at most 192 coordinates.
pub fn bad_centre(shades: &[u32]) -> bool
    requires { length shades.now ≤ most_coordinates }
    ensures { result ≡ bad_centre shades.now }
{
    let mut count = 0;
    for coordinate in shades {
        count += u32::from(colour::MOST_COORDINATE < *coordinate);
    }
    0 < count
}
