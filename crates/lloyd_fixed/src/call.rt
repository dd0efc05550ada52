// The run with fixed shades.
ghost use Rattle.lloyd.specs.{RunMeets};
ghost use Rattle.lloyd_fixed.specs.Outcomes.{fixed_run};

use super::order::fixed_refusal;
use lloyd::Ran;
use lloyd_tests::limit_of;
use moves::Stride;
use refusal::Refusal;
use rounds::Whole;
use table_test::Record;

// A run of `count` shades of which the first are fixed: whole levels, three bytes for each in
// `fixed`. These stand at sixteen times their levels and never move. Each next shade begins at the
// colour that is farthest from its nearest shade so far, the lowest key at a tie; every colour
// begins in shade 0; then shortened rounds are made, up to the first that moves no shade or to the
// limit, in which the other shades move to the means of their groups. A limit of 0 means 100.
// Refuses, in this order:
//   2 BAD TABLE     the record and the used entries are no table;
//   10 BAD PALETTE  the fixed list is not of 3 to 189 bytes, or not a multiple of 3;
//   4 BAD COUNT     the shades are not 1 to 64, or no more than are fixed;
//   5 FEW COLOURS   fewer used colours are unlike every fixed shade than there are free shades;
//   6 BAD LIMIT     the limit is above 200;
//   7 SHORT ROOM    there are fewer members than used entries, or fewer totals than the limit.
// Leaves the last round's grouping in the members and each round's total in the totals; members
// past the used entries and totals past the rounds made stay. A refusal leaves both as they came.
#[tactic(auto, unfolding(crate::specs::Outcomes::fixed_run))]
pub fn run_fixed(
    rec: Record,
    keys: &[u32],
    weights: &[u32],
    fixed: &[u8],
    count: usize,
    limit: usize,
    members: &mut [u32],
    totals: &mut [u64],
) -> Result<Ran, Refusal>
    ensures { RunMeets (fixed_run rec keys.now weights.now
        fixed.now count limit members.old totals.old)
        result members.new totals.new }
{
    fixed_refusal(rec, keys, weights, fixed, count, limit, members, totals)?;
    let rounds = limit_of(limit);
    let n = fixed.len();
    let held = n / 3;
    let mut base = [0u32; 192];
    lloyd_stock::lay_stock(fixed, &mut base);
    let mut shades = [0u32; 192];
    let a = rounds::run_from(
        keys,
        weights,
        rec.used,
        &base[..n],
        &mut shades,
        held,
        count,
        Stride::ToMean,
        rounds,
        members,
        totals,
    );
    Ok(Ran {
        shades,
        rounds: a.rounds,
        settled: a.settled,
        distances: a.distances,
        total: a.total,
    })
}
