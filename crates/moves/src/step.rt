// Each shade to the rounded mean of its group, or by a leap past it; a shade with no group stays,
// and so do shades that are held.
ghost use Rattle.std.specs.Prelude.{◌≡◌, not, ◌+◌, ◌*◌, ◌<◌, ◌≤◌, length};
ghost use Rattle.number.specs.{fill, how_many};
ghost use Rattle.shades.specs.{most_shades, most_coordinates};
ghost use Rattle.method.specs.{move_of, holding_move};
ghost use Rattle.group_sums.specs.{Measured};
ghost use Rattle.moves.specs.Reading.{goes, stays, with_moved};
ghost use Rattle.moves.specs.Striding.{leaps};

use super::Stride;
use colour::Point;
use group_sums::{level_sum, pixels_of};
use shades::{put_shade, shade_at};

// Where coordinate `i` goes. Requires sums of a table's groups, and that the coordinate is there.
fn new_coordinate(sums: &[u64; 128], shades: &[u32], i: usize, stride: Stride) -> u32
    requires { Measured sums.now × (i < most_coordinates) × (i < length shades.now) }
    ensures { result ≡ goes (move_of (leaps stride)) sums.now shades.now i }
{
    let q = i / 3;
    let pixels = pixels_of(sums, q);
    if pixels == 0 {
        return shades[i];
    }
    let coords = 16 * level_sum(sums, i % 3, q);
    match stride {
        Stride::ToMean => colour::rounded_mean(pixels, coords),
        Stride::PastMean => moves_leap::leap(pixels, coords, shades[i]),
    }
}

// Moves shade `q`: does that take it elsewhere? Requires sums of a table's groups, and that the
// shade is there.
fn move_shade(sums: &[u64; 128], shades: &mut [u32], q: usize, stride: Stride) -> bool
    requires { Measured sums.now × (q < most_shades) × (3 * q + 2 < length shades.old) }
    ensures shades { shades.new
        ≡ with_moved (move_of (leaps stride)) sums.now shades.old q }
    ensures moved { result
        ≡ not (stays (move_of (leaps stride)) sums.now shades.old q) }
{
    let i = 3 * q;
    let before = shade_at(shades, q);
    let after = Point {
        r: new_coordinate(sums, shades, i, stride),
        g: new_coordinate(sums, shades, i + 1, stride),
        b: new_coordinate(sums, shades, i + 2, stride),
    };
    put_shade(shades, q, after);
    after != before
}

// Moves the first `count` shades but the first `held` by this stride, and answers how many of them
// that took elsewhere. Requires sums of a table's groups, and that the shades are there, as many as
// are held at least.
pub fn move_shades(
    sums: &[u64; 128],
    shades: &mut [u32],
    held: usize,
    count: usize,
    stride: Stride,
) -> u32
    requires { Measured sums.now × (held ≤ count) × (count ≤ most_shades)
        × (3 * count ≤ length shades.old) }
    ensures shades { shades.new
        ≡ fill (3 * count)
        (goes (holding_move held (move_of (leaps stride))) sums.now shades.old)
        shades.old }
    ensures moved { result
        ≡ how_many count
        (λ q. not (stays (holding_move held (move_of (leaps stride))) sums.now
        shades.old q)) }
{
    let mut moved: u32 = 0;
    for q in held..count {
        moved += u32::from(move_shade(sums, shades, q, stride));
    }
    moved
}
