// The run, by Lloyd's rule and by Jancey's.
ghost use Rattle.method.specs.{kind_of};
ghost use Rattle.moves.specs.{leaps};
ghost use Rattle.lloyd.specs.Outcomes.{run_with, run_of, jancey_run, RunMeets};

use super::Ran;
use lloyd_refusal::run_refusal;
use lloyd_tests::limit_of;
use moves::Stride;
use refusal::Refusal;
use rounds::Whole;
use table_test::Record;

// A run by Jancey's rule where the shades go past their means, else by Lloyd's: what `run` and
// `run_jancey` do.
fn run_with(
    rec: Record,
    keys: &[u32],
    weights: &[u32],
    count: usize,
    stride: Stride,
    limit: usize,
    members: &mut [u32],
    totals: &mut [u64],
) -> Result<Ran, Refusal>
    ensures { RunMeets (run_with (kind_of (leaps stride)) rec keys.now
        weights.now count limit members.old totals.old)
        result members.new totals.new }
{
    run_refusal(rec, keys, weights, count, limit, members, totals)?;
    let rounds = limit_of(limit);
    let mut shades = [0u32; 192];
    let a = rounds::make_run(
        rec,
        keys,
        weights,
        &mut shades,
        count,
        stride,
        rounds,
        members,
        totals,
    );
    Ok(Ran {
        shades,
        rounds: a.rounds,
        settled: a.settled,
        distances: a.distances,
        total: a.total,
    })
}

// A run of `count` shades: maximin starting shades, every colour in shade 0, then shortened rounds
// up to the first that moves no shade or to the limit. A limit of 0 means 100.
// Refuses, in this order:
//   2 BAD TABLE     the record and the used entries are no table;
//   4 BAD COUNT     the shades are not 1 to 64;
//   5 FEW COLOURS   more shades than used entries are wanted;
//   6 BAD LIMIT     the limit is above 200;
//   7 SHORT ROOM    there are fewer members than used entries, or fewer totals than the limit.
// Leaves the last round's grouping in the members and each round's total in the totals; members
// past the used entries and totals past the rounds made stay. A refusal leaves both as they came.
#[tactic(auto, unfolding(crate::specs::Outcomes::run_of))]
pub fn run(
    rec: Record,
    keys: &[u32],
    weights: &[u32],
    count: usize,
    limit: usize,
    members: &mut [u32],
    totals: &mut [u64],
) -> Result<Ran, Refusal>
    ensures { RunMeets (run_of rec keys.now weights.now count limit
        members.old totals.old)
        result members.new totals.new }
{
    run_with(
        rec,
        keys,
        weights,
        count,
        Stride::ToMean,
        limit,
        members,
        totals,
    )
}

// A run in which a shade with a group steps past the mean: on each coordinate nine fifths of the
// way from where it stands to the exact mean of its group, to the nearest sixteenth, halves up, and
// held to 0 and 4080; where that ends as far from the exact mean as it began, or farther, on the
// rounded mean. In all else it is `run`: it begins, counts and ends as that does.
// Refuses, in this order: 2 BAD TABLE, 4 BAD COUNT, 5 FEW COLOURS, 6 BAD LIMIT, 7 SHORT ROOM, each
// where `run` does. Leaves in members and totals what `run` leaves there; a refusal leaves both as
// they came. It is a call beside `run`, and no argument of it, as C links each by its name.
#[tactic(auto, unfolding(crate::specs::Outcomes::jancey_run))]
pub fn run_jancey(
    rec: Record,
    keys: &[u32],
    weights: &[u32],
    count: usize,
    limit: usize,
    members: &mut [u32],
    totals: &mut [u64],
) -> Result<Ran, Refusal>
    ensures { RunMeets (jancey_run rec keys.now weights.now count limit
        members.old totals.old)
        result members.new totals.new }
{
    run_with(
        rec,
        keys,
        weights,
        count,
        Stride::PastMean,
        limit,
        members,
        totals,
    )
}
