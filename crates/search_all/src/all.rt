// The plain search: a block of colours is laid out coordinate by coordinate, looks at one shade
// after the other, and keeps the least packed number. There is no branch, and coordinates have 16
// bits, so that several colours are looked at in one operation.
ghost use Rattle.std.specs.Prelude.{◌≡◌, ◌<◌, ◌≤◌, length};
ghost use Rattle.number.specs.{fill};
ghost use Rattle.colour.specs.{Within, most_coordinate};
ghost use Rattle.shades.specs.{most_shades, colour_at, Shades, packed_nearest};
ghost use Rattle.search_all.specs.Asking.{
  scaled_at,
  point_at,
  looked_at,
  PointsOnGrid,
  RoomFor,
};

use colour::Point;

// Lays out the colours of `keys`, each level times `SCALE`, which is 16 for points of the grid and
// 1 for whole levels: their coordinates go to the fronts of three lists, the rest of which stays.
// Requires a scale of at most 16, and room for them there.
pub fn lay_out<const SCALE: u32>(
    keys: &[u32],
    reds: &mut [u16],
    greens: &mut [u16],
    blues: &mut [u16],
)
    requires { (SCALE ≤ 16) × RoomFor (length keys.now) reds.old greens.old blues.old }
    ensures reds { reds.new
        ≡ fill (length keys.now) (λ i. (scaled_at SCALE keys.now i).r)
        reds.old }
    ensures greens { greens.new
        ≡ fill (length keys.now) (λ i. (scaled_at SCALE keys.now i).g)
        greens.old }
    ensures blues { blues.new
        ≡ fill (length keys.now) (λ i. (scaled_at SCALE keys.now i).b)
        blues.old }
{
    for (i, key) in keys.iter().enumerate() {
        reds[i] = colour::short_of(SCALE * colour::red_of(*key));
        greens[i] = colour::short_of(SCALE * colour::green_of(*key));
        blues[i] = colour::short_of(SCALE * colour::blue_of(*key));
    }
}

// The points laid out look at shade `q`, which stands at `p`. Requires a point on the grid for each
// place of `best`, and a shade on the grid with a number below 64.
fn look(reds: &[u16], greens: &[u16], blues: &[u16], p: Point, q: usize, best: &mut [u32])
    requires { RoomFor (length best.old) reds.now greens.now blues.now
        × PointsOnGrid (length best.old) (point_at reds.now greens.now blues.now)
        × Within most_coordinate p × (q < most_shades) }
    ensures { best.new
        ≡ fill (length best.old)
        (looked_at (point_at reds.now greens.now blues.now) p q
        best.old) best.old }
{
    let number = q as u32;
    for i in 0..best.len() {
        let d = colour::distance_from(reds[i], greens[i], blues[i], p);
        best[i] = best[i].min(64 * d + number);
    }
}

// The nearest shade of each point laid out in the three lists, distance and number in one, into
// `best`. Requires a point on the grid for each place of `best`, and some shades on the grid.
pub fn search_points(
    reds: &[u16],
    greens: &[u16],
    blues: &[u16],
    shades: &[u32],
    count: usize,
    best: &mut [u32],
)
    requires { RoomFor (length best.old) reds.now greens.now blues.now
        × PointsOnGrid (length best.old) (point_at reds.now greens.now blues.now)
        × Shades count shades.now × (0 < count) }
    ensures { best.new
        ≡ fill (length best.old)
        (λ i. packed_nearest shades.now count
        (point_at reds.now greens.now blues.now i))
        best.old }
{
    best.fill(u32::MAX);
    for q in 0..count {
        look(reds, greens, blues, shades::shade_at(shades, q), q, best);
    }
}

// The nearest shade of each colour of `keys`, distance and number in one, into `best`; the three
// lists are where the colours are laid out. Requires some shades on the grid, room for the colours
// there, and a key for each place of `best`.
fn search_block(
    keys: &[u32],
    shades: &[u32],
    count: usize,
    reds: &mut [u16],
    greens: &mut [u16],
    blues: &mut [u16],
    best: &mut [u32],
)
    requires { (length best.old ≤ length keys.now) × Shades count shades.now × (0 < count)
        × RoomFor (length keys.now) reds.old greens.old blues.old }
    ensures { best.new
        ≡ fill (length best.old)
        (λ i. packed_nearest shades.now count (colour_at keys.now i))
        best.old }
{
    lay_out::<16>(keys, reds, greens, blues);
    search_points(reds, greens, blues, shades, count, best);
}

// The nearest shade of each of the first `used` colours, distance and number in one, into the first
// `used` places of `members`; the others stay. Requires some shades on the grid, and room.
pub fn search_all(keys: &[u32], used: usize, shades: &[u32], count: usize, members: &mut [u32])
    requires { (used ≤ length keys.now) × (used ≤ length members.old)
        × Shades count shades.now × (0 < count) }
    ensures { members.new
        ≡ fill used
        (λ i. packed_nearest shades.now count (colour_at keys.now i))
        members.old }
{
    let mut reds = [0u16; 256];
    let mut greens = [0u16; 256];
    let mut blues = [0u16; 256];
    for start in (0..used).step_by(256) {
        let end = used.min(start + 256);
        search_block(
            &keys[start..end],
            shades,
            count,
            &mut reds,
            &mut greens,
            &mut blues,
            &mut members[start..end],
        );
    }
}
