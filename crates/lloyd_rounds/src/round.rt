// Single rounds.
ghost use Rattle.std.specs.Prelude.{◌≡◌};
ghost use Rattle.std.specs.Result.{result_err};
ghost use Rattle.refusal.specs.{first_refusal};
ghost use Rattle.method.specs.{state_of};
ghost use Rattle.lloyd_rounds.specs.Refusals.{plain_rows};
ghost use Rattle.lloyd_rounds.specs.Outcomes.{plain_round, short_round, RoundMeets};

use super::Rounded;
use lloyd_tests::bad_member;
use refusal::Refusal;
use rounds_step::Stepped;
use table_test::Record;

// The answer of a round that is made.
fn made(a: Stepped) -> Rounded
    ensures { result ≡ record {
      total = a.total;
      moved = a.moved;
      distances = a.distances;
    } }
{
    Rounded {
        total: a.total,
        moved: a.moved,
        distances: a.distances,
    }
}

// The tests that every round begins with, in this order:
//   2 BAD TABLE    the record and the used entries are no table;
//   4 BAD COUNT    the coordinates are not 3 to 192 or not a multiple of 3;
//   8 BAD CENTRE   a coordinate is above 4080;
//   7 SHORT ROOM   there are fewer members than used entries.
fn round_refusal(
    rec: Record,
    keys: &[u32],
    weights: &[u32],
    coordinates: &[u32],
    members: &[u32],
) -> Result<(), Refusal>
    ensures { result_err result ≡ first_refusal (plain_rows rec keys.now
        weights.now (state_of coordinates.now members.now)) }
{
    if table_test::bad_table(rec, keys, weights) {
        return Err(Refusal::BadTable);
    }
    if shades::bad_coordinates(coordinates.len()) {
        return Err(Refusal::BadCount);
    }
    if shades::bad_centre(coordinates) {
        return Err(Refusal::BadCentre);
    }
    let used = rec.used;
    if members.len() < used {
        return Err(Refusal::ShortRoom);
    }
    Ok(())
}

// One round in which each colour looks at every shade. The count of shades is a third of the
// coordinates lent.
// Refuses what round_refusal does: 2 BAD TABLE, 4 BAD COUNT, 8 BAD CENTRE, 7 SHORT ROOM, in this
// order.
// Leaves the grouping in the members, which stay past the used entries, and the moved shades in the
// coordinates. A refusal leaves both as they came.
#[tactic(auto, unfolding(crate::specs::Outcomes::plain_round))]
pub fn plain_round(
    rec: Record,
    keys: &[u32],
    weights: &[u32],
    coordinates: &mut [u32],
    members: &mut [u32],
) -> Result<Rounded, Refusal>
    ensures { RoundMeets (plain_round rec keys.now weights.now
        (state_of coordinates.old members.old))
        result coordinates.new members.new }
{
    round_refusal(rec, keys, weights, coordinates, members)?;
    let used = rec.used;
    let count = coordinates.len() / 3;
    let a = rounds_step::plain_step(keys, weights, used, coordinates, count, members);
    Ok(made(a))
}

// One round by the shortened search, which reads each colour's former shade from the members. It
// leaves what a plain round leaves, and counts the distances it worked out.
// Refuses, in this order:
//   2, 4, 8, 7     as plain_round does;
//   9 BAD MEMBER   a used entry's former shade number is not below the count.
// Leaves the grouping in the members, which stay past the used entries, and the moved shades in the
// coordinates. A refusal leaves both as they came.
#[tactic(auto, unfolding(crate::specs::Outcomes::short_round))]
pub fn short_round(
    rec: Record,
    keys: &[u32],
    weights: &[u32],
    coordinates: &mut [u32],
    members: &mut [u32],
) -> Result<Rounded, Refusal>
    ensures { RoundMeets (short_round rec keys.now weights.now
        (state_of coordinates.old members.old))
        result coordinates.new members.new }
{
    round_refusal(rec, keys, weights, coordinates, members)?;
    let used = rec.used;
    let count = coordinates.len() / 3;
    if bad_member(members, used, count) {
        return Err(Refusal::BadMember);
    }
    let a = rounds_step::short_step(keys, weights, used, coordinates, count, members);
    Ok(made(a))
}
