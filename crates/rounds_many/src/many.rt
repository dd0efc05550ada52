// Shortened rounds, one after the other, to the first that moves no shade or to the limit.
ghost use Rattle.std.specs.Prelude.{◌<◌, ◌≤◌, length};
ghost use Rattle.method.specs.{state_of, colours_of, kind_of, holding, most_rounds};
ghost use Rattle.moves.specs.{leaps};
ghost use Rattle.rounds_step.specs.{Walkable};
ghost use Rattle.rounds_many.specs.Meeting.{SeriesMeets};

use super::Series;
use group_join::Follow;
use moves::Stride;

// Makes rounds by this stride, with the first `held` shades held, to the first that moves no shade
// or to the limit, and stores each total. The first takes the groups' sums anew, and they go on
// from round to round. Requires what a shortened round does, a limit of 1 to 200, and room for as
// many totals.
pub fn make_rounds(
    keys: &[u32],
    weights: &[u32],
    used: usize,
    shades: &mut [u32],
    held: usize,
    count: usize,
    stride: Stride,
    limit: usize,
    members: &mut [u32],
    totals: &mut [u64],
) -> Series
    requires { Walkable used keys.now weights.now count (state_of shades.old members.old)
        × (held ≤ count) × (0 < limit) × (limit ≤ most_rounds) × (limit ≤ length totals.old) }
    ensures { SeriesMeets (holding held (kind_of (leaps stride)))
        (colours_of used keys.now weights.now) count limit
        (state_of shades.old members.old)
        (state_of shades.new members.new)
        totals.old totals.new result.rounds result.settled result.distances }
{
    let mut rows = [0u32; 4096];
    let mut sums = [0u64; 128];
    let mut follow = Follow::Anew;
    let mut distances: u64 = 0;
    for r in 0..limit {
        let a = rounds_step::next_step(
            keys, weights, used, shades, held, count, stride, &mut rows, members, follow, &mut sums,
        );
        follow = Follow::Onward;
        let moved = a.moved;
        totals[r] = a.total;
        distances += a.distances;
        if moved == 0 {
            return Series {
                rounds: r + 1,
                settled: true,
                distances,
            };
        }
    }
    Series {
        rounds: limit,
        settled: false,
        distances,
    }
}
