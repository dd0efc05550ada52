// The tests of a run with fixed shades, one after the other.
ghost use Rattle.std.specs.Prelude.{◌≡◌, false, ◌<◌};
ghost use Rattle.std.specs.Result.{result_err};
ghost use Rattle.refusal.specs.{first_refusal};
ghost use Rattle.lloyd_stock.specs.{UsedKeys, fixed_in, bad_fixed, few_left};
ghost use Rattle.lloyd_fixed.specs.Outcomes.{fixed_rows};

use refusal::Refusal;
use table_test::Record;

// Whether fewer used colours are unlike every fixed shade than there are free shades: the test of
// 5 FEW COLOURS. Each fixed shade is like one colour at most, so with as many used colours as
// shades there are enough, and none is looked up. Requires the used keys of a table, a fixed list,
// and a free shade.
fn few_left(rec: Record, keys: &[u32], fixed: &[u8], count: usize) -> bool
    requires { UsedKeys rec.used keys.now × (bad_fixed fixed.now ≡ false)
        × (fixed_in fixed.now < count) }
    ensures { result ≡ few_left rec keys.now fixed.now count }
{
    let used = rec.used;
    if count <= used {
        return false;
    }
    lloyd_stock::colours_left(keys, used, fixed) < count - fixed.len() / 3
}

// The first test of a run with fixed shades that holds, `Ok` where none does; in this order:
//   2 BAD TABLE     the record and the used entries are no table;
//   10 BAD PALETTE  the fixed list is not of 3 to 189 bytes, or not a multiple of 3;
//   4 BAD COUNT     the shades are not 1 to 64, or no more than are fixed;
//   5 FEW COLOURS   fewer used colours are unlike every fixed shade than there are free shades;
//   6 BAD LIMIT, 7 SHORT ROOM   as of every run: lloyd_refusal::room_refusal.
pub fn fixed_refusal(
    rec: Record,
    keys: &[u32],
    weights: &[u32],
    fixed: &[u8],
    count: usize,
    limit: usize,
    members: &[u32],
    totals: &[u64],
) -> Result<(), Refusal>
    ensures { result_err result ≡ first_refusal (fixed_rows rec keys.now
        weights.now fixed.now count limit members.now totals.now) }
{
    if table_test::bad_table(rec, keys, weights) {
        return Err(Refusal::BadTable);
    }
    if lloyd_stock::bad_fixed(fixed.len()) {
        return Err(Refusal::BadPalette);
    }
    if lloyd_tests::bad_count(count) {
        return Err(Refusal::BadCount);
    }
    let held = fixed.len() / 3;
    if count <= held {
        return Err(Refusal::BadCount);
    }
    if few_left(rec, keys, fixed, count) {
        return Err(Refusal::FewColours);
    }
    lloyd_refusal::room_refusal(rec, limit, members, totals)
}
