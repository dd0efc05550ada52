// The shortened search without sorting: each shade has a row of its gaps to the shades, in the
// order of their numbers, and each of them is looked at. On a small table that is less than
// sorting.
ghost use Rattle.std.specs.Prelude.{◌≡◌, not, ◌&&◌, ◌+◌, ◌*◌, ◌<◌, ◌≤◌, leb, eqb, length};
ghost use Rattle.number.specs.{fill};
ghost use Rattle.colour.specs.{Within, most_coordinate};
ghost use Rattle.shades.specs.{most_shades, Shades, to_shade, nearest_shade, worked};
ghost use Rattle.search_rows.specs.{row_of};
ghost use Rattle.search_gaps.specs.Nearing.{Gaps, GapsReady};

use colour::Point;
use search_rows::Met;

// The gaps from `p` to the shades, into the first `count` places of `row`, which is required to
// have them; the others stay.
fn gap_row(shades: &[u32], count: usize, p: Point, row: &mut [u32])
    requires { Shades count shades.now × Within most_coordinate p
        × (count ≤ length row.old) }
    ensures { row.new
        ≡ fill count (to_shade shades.now p) row.old }
{
    for q in 0..count {
        row[q] = shades::distance_to(shades, q, p);
    }
}

// Fills the row of each shade with its gaps, 64 places a row. Requires `count` shades on the grid
// and room for the rows.
pub fn fill_gaps(shades: &[u32], count: usize, gaps: &mut [u32])
    requires { Shades count shades.now × (most_shades * count ≤ length gaps.old) }
    ensures { Gaps shades.now count gaps.new }
{
    // Of a walk by `chunks_exact_mut(64)` no proof knows what it wrote, so rows are cut by place.
    for p in 0..count {
        let a = 64 * p;
        gap_row(
            shades,
            count,
            shades::shade_at(shades, p),
            &mut gaps[a..a + 64],
        );
    }
}

// Whether shade `q` is another than `p`, and its gap to p at most `limit`. Requires the gap.
fn tries(gaps: &[u32], p: usize, q: usize, limit: u32) -> bool
    requires { most_shades * p + q < length gaps.now }
    ensures { result ≡ (not (eqb q p) && leb (row_of gaps.now p q) limit) }
{
    q != p && gaps[64 * p + q] <= limit
}

// The nearest shade of `point`, from its former shade `p`, and the distances worked out: that to p,
// and that to each other shade whose gap is at most four times as much. Requires the shades, their
// gaps and a former shade below `count`.
pub fn walk_gaps(shades: &[u32], count: usize, gaps: &[u32], point: Point, p: usize) -> Met
    requires { GapsReady shades.now gaps.now count point p }
    ensures number { result.number ≡ nearest_shade shades.now count point }
    ensures distance { result.distance
        ≡ to_shade shades.now point (nearest_shade shades.now count point) }
    ensures distances { result.distances ≡ worked shades.now count point p }
{
    let d = shades::distance_to(shades, p, point);
    let limit = 4 * d;
    let mut best = 64 * d + p as u32;
    let mut others: u64 = 0;
    for q in 0..count {
        if tries(gaps, p, q, limit) {
            best = shades::nearer(shades, best, q, point);
            others += 1;
        }
    }
    Met {
        number: best % 64,
        distance: best / 64,
        distances: 1 + others,
    }
}
