// One round: the grouping, by either search, and then the move.
ghost use Rattle.std.specs.Prelude.{◌*◌, ◌≤◌, length};
ghost use Rattle.shades.specs.{most_shades};
ghost use Rattle.method.specs.{
  state_of,
  colours_of,
  to_mean,
  kind_of,
  holding,
  plain_distances,
  short_distances,
};
ghost use Rattle.group_sums.specs.{Summed, member_at};
ghost use Rattle.group_join.specs.{anew, covered};
ghost use Rattle.moves.specs.{leaps};
ghost use Rattle.rounds_step.specs.Meeting.{Steppable, Walkable, StepMeets};

use super::Stepped;
use group_join::Follow;
use moves::Stride;

// One round by the plain search. Requires a table, shades on the grid and a member for each entry.
pub fn plain_step(
    keys: &[u32],
    weights: &[u32],
    used: usize,
    shades: &mut [u32],
    count: usize,
    members: &mut [u32],
) -> Stepped
    requires { Steppable used keys.now weights.now count
        (state_of shades.old members.old) }
    ensures { StepMeets to_mean
        (colours_of used keys.now weights.now) count
        (plain_distances (colours_of used keys.now weights.now) count)
        (state_of shades.old members.old)
        (state_of shades.new members.new)
        result.total result.moved result.distances }
{
    let mut sums = [0u64; 128];
    let a = group_all::group_plain(keys, weights, used, shades, count, members, &mut sums);
    let moved = moves::move_shades(&sums, shades, 0, count, Stride::ToMean);
    Stepped {
        total: a.total,
        moved,
        distances: a.distances,
    }
}

// One round by the shortened search and this stride, with the first `held` shades held, which
// leaves the sums of its groups in `sums`. What `rows` holds afterwards is not said. Requires the
// same, that no more shades are held than there are, that each member is a shade's number, in
// `sums` those of the former groups, or zeros where they are taken anew, and room in `rows`.
pub fn next_step(
    keys: &[u32],
    weights: &[u32],
    used: usize,
    shades: &mut [u32],
    held: usize,
    count: usize,
    stride: Stride,
    rows: &mut [u32],
    members: &mut [u32],
    follow: Follow,
    sums: &mut [u64; 128],
) -> Stepped
    requires { Walkable used keys.now weights.now count (state_of shades.old members.old)
        × (held ≤ count) × (most_shades * count ≤ length rows.old)
        × Summed (member_at members.old) keys.now weights.now (covered (anew follow) used 0)
        sums.old }
    ensures step { StepMeets (holding held (kind_of (leaps stride)))
        (colours_of used keys.now weights.now) count
        (short_distances (colours_of used keys.now weights.now) count)
        (state_of shades.old members.old)
        (state_of shades.new members.new)
        result.total result.moved result.distances }
    ensures sums { Summed (member_at members.new) keys.now
        weights.now used sums.new }
{
    let a = groups::regroup(
        keys, weights, used, shades, count, rows, members, follow, sums,
    );
    let moved = moves::move_shades(sums, shades, held, count, stride);
    Stepped {
        total: a.total,
        moved,
        distances: a.distances,
    }
}

// One round by the shortened search. Requires the same, and that each member is a shade's number.
pub fn short_step(
    keys: &[u32],
    weights: &[u32],
    used: usize,
    shades: &mut [u32],
    count: usize,
    members: &mut [u32],
) -> Stepped
    requires { Walkable used keys.now weights.now count
        (state_of shades.old members.old) }
    ensures { StepMeets to_mean
        (colours_of used keys.now weights.now) count
        (short_distances (colours_of used keys.now weights.now) count)
        (state_of shades.old members.old)
        (state_of shades.new members.new)
        result.total result.moved result.distances }
{
    let mut rows = [0u32; 4096];
    let mut sums = [0u64; 128];
    next_step(
        keys,
        weights,
        used,
        shades,
        0,
        count,
        Stride::ToMean,
        &mut rows,
        members,
        Follow::Anew,
        &mut sums,
    )
}
