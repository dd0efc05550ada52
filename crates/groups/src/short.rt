// The grouping by the shortened search, from the former shades in the members.
ghost use Rattle.std.specs.Prelude.{◌≡◌, ◌<◌, get_or};
ghost use Rattle.shades.specs.{colour_at, to_shade, nearest_shade, worked};
ghost use Rattle.method.specs.{state_of, colours_of, short_distances};
ghost use Rattle.group_sums.specs.{Summed, member_at};
ghost use Rattle.group_join.specs.{anew, covered, Grouped};
ghost use Rattle.groups.specs.Grouping.{Groupable, of_gaps, Tracks};

use super::Kind;
use group_join::{Follow, Regrouped, join};
use search_rows::Met;

// The nearest shade of entry `i`, from its member, by the rows in `rows`.
fn rejoin(
    keys: &[u32],
    weights: &[u32],
    used: usize,
    shades: &[u32],
    count: usize,
    rows: &[u32],
    kind: Kind,
    members: &[u32],
    i: usize,
) -> Met
    requires { Groupable used keys.now weights.now shades.now count members.now
        × Tracks (of_gaps kind) shades.now count rows.now × (i < used) }
    ensures number { result.number
        ≡ nearest_shade shades.now count (colour_at keys.now i) }
    ensures distance { result.distance
        ≡ to_shade shades.now (colour_at keys.now i)
        (nearest_shade shades.now count (colour_at keys.now i)) }
    ensures distances { result.distances
        ≡ worked shades.now count (colour_at keys.now i)
        (get_or members.now i 0) }
{
    let p = members[i] as usize;
    let c = colour::colour_of(keys[i]);
    match kind {
        Kind::Gaps => search_gaps::walk_gaps(shades, count, rows, c, p),
        Kind::Rising => search_near::walk(shades, count, rows, c, p),
    }
}

// Groups the table by the shortened search and leaves the grouping in the members, which stay past
// the used entries, and the groups' sums in `sums`. Requires a table, shades with their rows, a
// former shade for each entry, and in `sums` those of the former groups, or zeros where they are
// taken anew.
pub fn group_short(
    keys: &[u32],
    weights: &[u32],
    used: usize,
    shades: &[u32],
    count: usize,
    rows: &[u32],
    kind: Kind,
    members: &mut [u32],
    follow: Follow,
    sums: &mut [u64; 128],
) -> Regrouped
    requires { Groupable used keys.now weights.now shades.now count members.old
        × Tracks (of_gaps kind) shades.now count rows.now
        × Summed (member_at members.old) keys.now weights.now
        (covered (anew follow) used 0) sums.old }
    ensures grouped { Grouped used keys.now weights.now
        shades.now count members.old members.new
        result.total sums.new }
    ensures distances { result.distances
        ≡ short_distances (colours_of used keys.now weights.now) count
        (state_of shades.now members.old) }
{
    let mut total: u64 = 0;
    let mut distances: u64 = 0;
    for i in 0..used {
        let met = rejoin(keys, weights, used, shades, count, rows, kind, members, i);
        total += shades::cost(weights[i], met.distance);
        distances += met.distances;
        join(keys, weights, used, members, follow, sums, i, met.number);
    }
    Regrouped { total, distances }
}
