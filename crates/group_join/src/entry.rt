// An entry joins a group, and the groups' sums follow.
ghost use Rattle.std.specs.Prelude.{◌≡◌, ◌+◌, ◌≤◌, ◌<◌, length, set};
ghost use Rattle.shades.specs.{most_shades};
ghost use Rattle.table_entries.specs.{Tabled};
ghost use Rattle.group_sums.specs.{Summed, Assigned, member_at};
ghost use Rattle.group_join.specs.Covering.{anew, covered};

use super::Follow;
use group_sums::{lower, raise};
use level_sums::{blue_pixels, red_green};

// Entry `i` joins group `q`, and the sums over the entries before it, which are required, are then
// over it too. Requires a table, a member for each entry, one of the entries and one of 64 groups.
fn enter(
    keys: &[u32],
    weights: &[u32],
    used: usize,
    members: &mut [u32],
    sums: &mut [u64; 128],
    i: usize,
    q: u32,
)
    requires { Tabled used keys.now weights.now × (used ≤ length members.old)
        × Summed (member_at members.old) keys.now weights.now i sums.old × (i < used)
        × (q < most_shades) }
    ensures members { members.new ≡ set members.old i q }
    ensures sums { Summed (member_at members.new) keys.now
        weights.now (i + 1) sums.new }
{
    let red_green = red_green(weights[i], keys[i]);
    let blue_pixels = blue_pixels(weights[i], keys[i]);
    raise(sums, q as usize, red_green, blue_pixels);
    members[i] = q;
}

// Entry `i` goes to group `q`. Where that is not its former one, what it gives goes along, from the
// former group's sums to those of q; most entries of a late round stay, and touch no sums. Requires
// a table, a group for each entry and the groups' sums, one of the entries and one of 64 groups.
fn go_over(
    keys: &[u32],
    weights: &[u32],
    used: usize,
    members: &mut [u32],
    sums: &mut [u64; 128],
    i: usize,
    q: u32,
)
    requires { Tabled used keys.now weights.now × Assigned used members.old
        × Summed (member_at members.old) keys.now weights.now used sums.old × (i < used)
        × (q < most_shades) }
    ensures members { members.new ≡ set members.old i q }
    ensures sums { Summed (member_at members.new) keys.now
        weights.now used sums.new }
{
    let p = members[i];
    if p == q {
        return;
    }
    let from = p as usize;
    let to = q as usize;
    let red_green = red_green(weights[i], keys[i]);
    let blue_pixels = blue_pixels(weights[i], keys[i]);
    lower(sums, from, red_green, blue_pixels);
    raise(sums, to, red_green, blue_pixels);
    members[i] = q;
}

// Entry `i` joins group `q`, and the sums follow: over one entry more where they are taken anew,
// else from the former group. Requires what both ways do.
pub fn join(
    keys: &[u32],
    weights: &[u32],
    used: usize,
    members: &mut [u32],
    follow: Follow,
    sums: &mut [u64; 128],
    i: usize,
    q: u32,
)
    requires { Tabled used keys.now weights.now × Assigned used members.old
        × Summed (member_at members.old) keys.now weights.now (covered (anew follow) used i)
        sums.old × (i < used) × (q < most_shades) }
    ensures members { members.new ≡ set members.old i q }
    ensures sums { Summed (member_at members.new) keys.now
        weights.now (covered (anew follow) used (i + 1)) sums.new }
{
    match follow {
        Follow::Anew => enter(keys, weights, used, members, sums, i, q),
        Follow::Onward => go_over(keys, weights, used, members, sums, i, q),
    }
}
