// The sums of the groups that the members tell: one pass over the used entries.
ghost use Rattle.std.specs.Prelude.{◌≡◌, replicate};
ghost use Rattle.table_entries.specs.{Tabled};
ghost use Rattle.group_sums.specs.{Summed, Assigned, member_at};

use group_sums::raise;
use level_sums::{blue_pixels, red_green};

// Adds up what each entry gives to its group. Requires a table, one of 64 groups for each entry,
// and sums that are 0.
pub fn sum_groups(
    keys: &[u32],
    weights: &[u32],
    used: usize,
    members: &[u32],
    sums: &mut [u64; 128],
)
    requires { Tabled used keys.now weights.now × Assigned used members.now
        × (sums.old ≡ replicate 128 0) }
    ensures { Summed (member_at members.now) keys.now
        weights.now used sums.new }
{
    for i in 0..used {
        let weight = weights[i];
        let key = keys[i];
        let first = red_green(weight, key);
        let second = blue_pixels(weight, key);
        raise(sums, members[i] as usize, first, second);
    }
}
