// The shortened search: the former shade's row is walked until the shades are too far from it.
ghost use Rattle.std.specs.Prelude.{◌≡◌};
ghost use Rattle.shades.specs.{to_shade, nearest_shade, worked};
ghost use Rattle.search_near.specs.Walking.{RowsReady};

use colour::Point;
use search_rows::Met;

// The nearest shade of `point`, from its former shade `p`, and the distances worked out. Place 0 of
// the row has gap 0, so its shade stands where p stands, and the walk begins at place 1. Where the
// gap there is too much, p is the nearest: most colours of a late round stay so, and walk nowhere.
// Requires the shades, their rows and a former shade below `count`.
pub fn walk(shades: &[u32], count: usize, rows: &[u32], point: Point, p: usize) -> Met
    requires { RowsReady shades.now rows.now count point p }
    ensures number { result.number ≡ nearest_shade shades.now count point }
    ensures distance { result.distance
        ≡ to_shade shades.now point (nearest_shade shades.now count point) }
    ensures distances { result.distances ≡ worked shades.now count point p }
{
    let d = shades::distance_to(shades, p, point);
    let base = 64 * p;
    let limit = 4 * d;
    if limit < rows[base + 1] / 64 {
        return Met {
            number: p as u32,
            distance: d,
            distances: 1,
        };
    }
    let mut best = 64 * d + rows[base] % 64;
    for j in 1..count {
        let v = rows[base + j];
        if limit < v / 64 {
            return Met {
                number: best % 64,
                distance: best / 64,
                distances: j as u64,
            };
        }
        best = shades::nearer(shades, best, (v % 64) as usize, point);
    }
    Met {
        number: best % 64,
        distance: best / 64,
        distances: count as u64,
    }
}
