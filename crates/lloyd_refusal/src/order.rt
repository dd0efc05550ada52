// The tests of a run, one after the other, and those that every run has at the end.
ghost use Rattle.std.specs.Prelude.{◌≡◌};
ghost use Rattle.std.specs.Result.{result_err};
ghost use Rattle.refusal.specs.{first_refusal};
ghost use Rattle.lloyd_refusal.specs.Refusals.{room_rows, run_rows};

use super::MOST_ROUNDS;
use refusal::Refusal;
use table_test::Record;

// The first of a run's last tests that holds, `Ok` where none does; in this order:
//   6 BAD LIMIT     the limit is above 200;
//   7 SHORT ROOM    there are fewer members than used entries, or fewer totals than the limit.
pub fn room_refusal(
    rec: Record,
    limit: usize,
    members: &[u32],
    totals: &[u64],
) -> Result<(), Refusal>
    ensures { result_err result ≡ first_refusal (room_rows rec limit
        members.now totals.now) }
{
    if MOST_ROUNDS < limit {
        return Err(Refusal::BadLimit);
    }
    let used = rec.used;
    if members.len() < used {
        return Err(Refusal::ShortRoom);
    }
    let rounds = lloyd_tests::limit_of(limit);
    if totals.len() < rounds {
        return Err(Refusal::ShortRoom);
    }
    Ok(())
}

// The first test of a run that holds, `Ok` where none does; in this order:
//   2 BAD TABLE     the record and the used entries are no table;
//   4 BAD COUNT     the shades are not 1 to 64;
//   5 FEW COLOURS   more shades than used entries are wanted;
//   6 BAD LIMIT, 7 SHORT ROOM   as above.
pub fn run_refusal(
    rec: Record,
    keys: &[u32],
    weights: &[u32],
    count: usize,
    limit: usize,
    members: &[u32],
    totals: &[u64],
) -> Result<(), Refusal>
    ensures { result_err result ≡ first_refusal (run_rows rec keys.now
        weights.now count limit members.now totals.now) }
{
    if table_test::bad_table(rec, keys, weights) {
        return Err(Refusal::BadTable);
    }
    if lloyd_tests::bad_count(count) {
        return Err(Refusal::BadCount);
    }
    let used = rec.used;
    if used < count {
        return Err(Refusal::FewColours);
    }
    room_refusal(rec, limit, members, totals)
}
