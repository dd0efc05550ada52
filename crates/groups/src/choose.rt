// The grouping by the shortened search, with the rows that are quicker for a table: to sort them
// takes about k³ steps for k shades, and to go through one that is not sorted takes k for each
// colour.
ghost use Rattle.std.specs.Prelude.{◌≡◌, ◌*◌, ◌≤◌, length};
ghost use Rattle.shades.specs.{most_shades, Shades};
ghost use Rattle.method.specs.{state_of, colours_of, short_distances};
ghost use Rattle.group_sums.specs.{Summed, member_at};
ghost use Rattle.group_join.specs.{anew, covered, Grouped};
ghost use Rattle.groups.specs.Grouping.{Groupable, of_gaps, Tracks};

use super::Kind;
use super::short::group_short;
use group_join::{Follow, Regrouped};

// Fills the rows of the shades, of this kind. Requires shades on the grid and room.
fn track(shades: &[u32], count: usize, rows: &mut [u32], kind: Kind)
    requires { Shades count shades.now × (most_shades * count ≤ length rows.old) }
    ensures { Tracks (of_gaps kind) shades.now count rows.new }
{
    match kind {
        Kind::Gaps => search_gaps::fill_gaps(shades, count, rows),
        Kind::Rising => search_rows::fill_rows(shades, count, rows),
    }
}

// Groups the table from the former shades and leaves the grouping in the members, which stay past
// the used entries, and the groups' sums in `sums`. What `rows` holds afterwards is not said.
// Requires a table, some shades, a former shade for each entry, in `sums` those of the former
// groups or zeros where they are taken anew, and room in `rows`.
pub fn regroup(
    keys: &[u32],
    weights: &[u32],
    used: usize,
    shades: &[u32],
    count: usize,
    rows: &mut [u32],
    members: &mut [u32],
    follow: Follow,
    sums: &mut [u64; 128],
) -> Regrouped
    requires { Groupable used keys.now weights.now shades.now count members.old
        × (most_shades * count ≤ length rows.old)
        × Summed (member_at members.old) keys.now weights.now
        (covered (anew follow) used 0) sums.old }
    ensures grouped { Grouped used keys.now weights.now
        shades.now count members.old members.new
        result.total sums.new }
    ensures distances { result.distances
        ≡ short_distances (colours_of used keys.now weights.now) count
        (state_of shades.now members.old) }
{
    let kind = if used <= count * count / 8 {
        Kind::Gaps
    } else {
        Kind::Rising
    };
    track(shades, count, rows, kind);
    group_short(
        keys, weights, used, shades, count, rows, kind, members, follow, sums,
    )
}
