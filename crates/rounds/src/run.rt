// A whole run: starting shades, rounds, and the final total.
ghost use Rattle.std.specs.Prelude.{◌≡◌, ◌≤◌, length, replicate};
ghost use Rattle.table_test.specs.{GoodTable};
ghost use Rattle.shades.specs.{most_coordinates, OnGrid};
ghost use Rattle.method.specs.{
  state_of,
  colours_of,
  kind_of,
  holding,
  listed,
  begin_from,
  begin,
  final_of,
};
ghost use Rattle.moves.specs.{leaps};
ghost use Rattle.rounds_many.specs.{SeriesMeets};
ghost use Rattle.rounds.specs.Asking.{Runnable};

use super::Whole;
use super::total::final_total;
use colour::Point;
use moves::Stride;
use rounds_many::Series;
use table_test::Record;

// Makes a run by this stride, with the first `held` shades held, from the given shades in `base`
// and coordinates that are required to be 192 zeros. Requires a table with a colour, a given shade,
// all of them on the grid, 1 to 64 shades, no more of them held, a limit of 1 to 200, and room for
// members and totals.
pub fn run_from(
    keys: &[u32],
    weights: &[u32],
    used: usize,
    base: &[u32],
    shades: &mut [u32],
    held: usize,
    count: usize,
    stride: Stride,
    limit: usize,
    members: &mut [u32],
    totals: &mut [u64],
) -> Whole
    requires { Runnable used keys.now weights.now count limit members.old totals.old
        × OnGrid base.now × (3 ≤ length base.now) × (held ≤ count)
        × (shades.old ≡ replicate most_coordinates 0) }
    ensures series { SeriesMeets (holding held (kind_of (leaps stride)))
        (colours_of used keys.now weights.now) count limit
        (begin_from (listed base.now)
        (colours_of used keys.now weights.now) count members.old)
        (state_of shades.new members.new)
        totals.old totals.new result.rounds result.settled result.distances }
    ensures total { result.total
        ≡ final_of (colours_of used keys.now weights.now)
        (state_of shades.new members.new) }
{
    starts::fill_starts(keys, used, base, shades, count, members);
    let a = rounds_many::make_rounds(
        keys, weights, used, shades, held, count, stride, limit, members, totals,
    );
    let total = final_total(keys, weights, used, shades, count, members);
    Whole {
        rounds: a.rounds,
        settled: a.settled,
        distances: a.distances,
        total,
    }
}

// Makes a run from the table's mean, which is read from the record's sums. Requires the same of all
// but the given shades, and that the record is the table's.
pub fn make_run(
    rec: Record,
    keys: &[u32],
    weights: &[u32],
    shades: &mut [u32],
    count: usize,
    stride: Stride,
    limit: usize,
    members: &mut [u32],
    totals: &mut [u64],
) -> Whole
    requires { Runnable rec.used keys.now weights.now count limit members.old
        totals.old × GoodTable rec keys.now weights.now
        × (shades.old ≡ replicate most_coordinates 0) }
    ensures series { SeriesMeets (kind_of (leaps stride))
        (colours_of rec.used keys.now weights.now) count limit
        (begin (colours_of rec.used keys.now weights.now) count
        members.old)
        (state_of shades.new members.new)
        totals.old totals.new result.rounds result.settled result.distances }
    ensures total { result.total
        ≡ final_of (colours_of rec.used keys.now weights.now)
        (state_of shades.new members.new) }
{
    let m = starts::mean_of(rec.pixels, rec.red, rec.green, rec.blue);
    let base = [m.r, m.g, m.b];
    run_from(
        keys, weights, rec.used, &base, shades, 0, count, stride, limit, members, totals,
    )
}
