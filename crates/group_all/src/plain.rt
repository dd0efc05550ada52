// The grouping by the plain search: the members are the search's scratch.
ghost use Rattle.std.specs.Prelude.{◌≡◌, ◌<◌, ◌≤◌, length, replicate};
ghost use Rattle.shades.specs.{Shades};
ghost use Rattle.table_entries.specs.{Tabled};
ghost use Rattle.method.specs.{state_of, colours_of, plain_distances};
ghost use Rattle.group_join.specs.{Grouped};

use group_join::Regrouped;
use group_sums::{gift_of, raise};

// Groups the table by the plain search and leaves the grouping in the members, which stay past the
// used entries, and the groups' sums in `sums`. Requires a table, some shades, a member for each
// entry, and sums that are 0.
pub fn group_plain(
    keys: &[u32],
    weights: &[u32],
    used: usize,
    shades: &[u32],
    count: usize,
    members: &mut [u32],
    sums: &mut [u64; 128],
) -> Regrouped
    requires { Tabled used keys.now weights.now × Shades count shades.now × (0 < count)
        × (used ≤ length members.old) × (sums.old ≡ replicate 128 0) }
    ensures grouped { Grouped used keys.now weights.now
        shades.now count members.old members.new
        result.total sums.new }
    ensures distances { result.distances
        ≡ plain_distances (colours_of used keys.now weights.now) count
        (state_of shades.now members.old) }
{
    search_all::search_all(keys, used, shades, count, members);
    let mut total: u64 = 0;
    let mut distances: u64 = 0;
    for i in 0..used {
        let a = gift_of(weights[i], keys[i], members[i]);
        let q = a.number;
        members[i] = q;
        total += a.cost;
        distances += count as u64;
        raise(sums, q as usize, a.first, a.second);
    }
    Regrouped { total, distances }
}
