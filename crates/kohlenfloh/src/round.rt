// Rounds and runs across the boundary.
ghost use Rattle.method.specs.{state_of};
ghost use Rattle.lloyd.specs.{plain_round, short_round, run_of, jancey_run};
ghost use Rattle.lloyd_fixed.specs.{fixed_run};
ghost use Rattle.arrays.specs.{record_in};
ghost use Rattle.kohlenfloh.specs.Crossing.{RoundCrosses, RunCrosses};

use refusal::number_in;

// One round in which each colour looks at every shade: lloyd::plain_round. `answer` receives total,
// shades moved, distances.
// Refuses, in this order: 2 BAD TABLE, 4 BAD COUNT, 8 BAD CENTRE, 7 SHORT ROOM, with zeros in the
// answer and both slices as they came.
pub fn kf_plain_round(
    rec: &[u64; 5],
    keys: &[u32],
    weights: &[u32],
    coordinates: &mut [u32],
    members: &mut [u32],
    answer: &mut [u64; 3],
) -> u32
    ensures { RoundCrosses (plain_round (record_in rec.now) keys.now
        weights.now (state_of coordinates.old members.old))
        result coordinates.new members.new answer.new }
{
    let a = lloyd::plain_round(arrays::record_in(rec), keys, weights, coordinates, members);
    *answer = arrays::round_numbers(a);
    u32::from(number_in(a.err()))
}

// One round by the shortened search: lloyd::short_round. `answer` receives total, shades moved,
// distances.
// Refuses, in this order: 2 BAD TABLE, 4 BAD COUNT, 8 BAD CENTRE, 7 SHORT ROOM, 9 BAD MEMBER, with
// zeros in the answer and both slices as they came.
pub fn kf_short_round(
    rec: &[u64; 5],
    keys: &[u32],
    weights: &[u32],
    coordinates: &mut [u32],
    members: &mut [u32],
    answer: &mut [u64; 3],
) -> u32
    ensures { RoundCrosses (short_round (record_in rec.now) keys.now
        weights.now (state_of coordinates.old members.old))
        result coordinates.new members.new answer.new }
{
    let a = lloyd::short_round(arrays::record_in(rec), keys, weights, coordinates, members);
    *answer = arrays::round_numbers(a);
    u32::from(number_in(a.err()))
}

// A run: lloyd::run. `shades` receives the shades, zeros past the count; `answer` rounds made,
// settled as 1 or 0, distances, final total.
// Refuses, in this order: 2 BAD TABLE, 4 BAD COUNT, 5 FEW COLOURS, 6 BAD LIMIT, 7 SHORT ROOM, with
// zeros in shades and answer, and members and totals as they came.
pub fn kf_run(
    rec: &[u64; 5],
    keys: &[u32],
    weights: &[u32],
    count: usize,
    limit: usize,
    members: &mut [u32],
    totals: &mut [u64],
    shades: &mut [u32; 192],
    answer: &mut [u64; 4],
) -> u32
    ensures { RunCrosses (run_of (record_in rec.now) keys.now
        weights.now count limit members.old totals.old)
        result members.new totals.new shades.new answer.new }
{
    let a = lloyd::run(
        arrays::record_in(rec),
        keys,
        weights,
        count,
        limit,
        members,
        totals,
    );
    *shades = arrays::run_shades(a);
    *answer = arrays::run_numbers(a);
    u32::from(number_in(a.err()))
}

// A run with shades that step past the mean: lloyd::run_jancey. Reads, writes and refuses what
// kf_run does.
pub fn kf_run_jancey(
    rec: &[u64; 5],
    keys: &[u32],
    weights: &[u32],
    count: usize,
    limit: usize,
    members: &mut [u32],
    totals: &mut [u64],
    shades: &mut [u32; 192],
    answer: &mut [u64; 4],
) -> u32
    ensures { RunCrosses (jancey_run (record_in rec.now) keys.now
        weights.now count limit members.old totals.old)
        result members.new totals.new shades.new answer.new }
{
    let a = lloyd::run_jancey(
        arrays::record_in(rec),
        keys,
        weights,
        count,
        limit,
        members,
        totals,
    );
    *shades = arrays::run_shades(a);
    *answer = arrays::run_numbers(a);
    u32::from(number_in(a.err()))
}

// A run with shades fixed from stock: lloyd_fixed::run_fixed. `fixed` has their levels, three bytes
// for each; `shades` receives the shades, the fixed ones in front, and `answer` what kf_run's does.
// Refuses, in this order: 2 BAD TABLE, 10 BAD PALETTE, 4 BAD COUNT, 5 FEW COLOURS, 6 BAD LIMIT,
// 7 SHORT ROOM, with zeros in shades and answer, and members and totals as they came.
pub fn kf_run_fixed(
    rec: &[u64; 5],
    keys: &[u32],
    weights: &[u32],
    fixed: &[u8],
    count: usize,
    limit: usize,
    members: &mut [u32],
    totals: &mut [u64],
    shades: &mut [u32; 192],
    answer: &mut [u64; 4],
) -> u32
    ensures { RunCrosses (fixed_run (record_in rec.now) keys.now
        weights.now fixed.now count limit members.old
        totals.old)
        result members.new totals.new shades.new answer.new }
{
    let a = lloyd_fixed::run_fixed(
        arrays::record_in(rec),
        keys,
        weights,
        fixed,
        count,
        limit,
        members,
        totals,
    );
    *shades = arrays::run_shades(a);
    *answer = arrays::run_numbers(a);
    u32::from(number_in(a.err()))
}
