// The test behind 2 BAD TABLE. Its loops have no way out but their end, and no branch. Weights and
// their total are judged before the channel sums, so that no sum grows too large.
ghost use Rattle.std.specs.Prelude.{◌≡◌, ◌≤◌, ◌<◌, min, length};
ghost use Rattle.number.specs.{sum, how_many};
ghost use Rattle.table_entries.specs.{most_entries};
ghost use Rattle.table_test.specs.Tables.{bad_table};
ghost use Rattle.table_test.specs.Testing.{falls_at, empty_at, weight_at};

use super::{MOST_ENTRIES, Record};
use bits::bit;
use table_sums::{other_sums, two_sums};

// What a pass over the weights finds: how many are 0, and their sum.
#[derive(Clone, Copy)]
struct Weighed {
    zeros: u32,
    sum: u64,
}

// The room of two lent slices of these lengths: the shorter one, capped at 1,048,576.
pub fn room_of(keys: usize, weights: usize) -> usize
    ensures { result ≡ min (min keys weights) most_entries }
{
    keys.min(weights).min(MOST_ENTRIES)
}

// How many places below `last` have a key that the next one is not above.
fn faults(keys: &[u32], last: usize) -> u32
    requires { (last < length keys.now) × (last ≤ most_entries) }
    ensures { result ≡ how_many last (falls_at keys.now) }
{
    let mut count: u32 = 0;
    for i in 0..last {
        count += bit(keys[i + 1] <= keys[i]);
    }
    count
}

// The zeros among the first `used` weights, and their sum.
fn weigh(weights: &[u32], used: usize) -> Weighed
    requires { (used ≤ length weights.now) × (used ≤ most_entries) }
    ensures zeros { result.zeros ≡ how_many used (empty_at weights.now) }
    ensures sum { result.sum ≡ sum used (weight_at weights.now) }
{
    let mut zeros: u32 = 0;
    let mut sum: u64 = 0;
    for &weight in &weights[..used] {
        zeros += bit(weight == 0);
        sum += u64::from(weight);
    }
    Weighed { zeros, sum }
}

// Whether the record and the used entries are no table: the test of 2 BAD TABLE. Refuses nothing.
// Where the keys rise strictly, the last one is the greatest, and it alone is compared.
pub fn bad_table(rec: Record, keys: &[u32], weights: &[u32]) -> bool
    ensures { result ≡ bad_table rec keys.now weights.now }
{
    let used = rec.used;
    let pixels = rec.pixels;
    let room = room_of(keys.len(), weights.len());
    if room < used {
        return true;
    }
    let red = rec.red;
    let green = rec.green;
    let blue = rec.blue;
    if used == 0 {
        if pixels != 0 {
            return true;
        }
        return other_sums(red, green, blue, 0, 0);
    }
    let last = used - 1;
    if faults(keys, last) != 0 {
        return true;
    }
    if colour::MOST_KEY < keys[last] {
        return true;
    }
    let weighed = weigh(weights, used);
    let zeros = weighed.zeros;
    let sum = weighed.sum;
    if zeros != 0 {
        return true;
    }
    if sum != pixels {
        return true;
    }
    if colour::MOST_PIXELS < pixels {
        return true;
    }
    let sums = two_sums(keys, weights, used);
    other_sums(red, green, blue, sums.first, sums.second)
}
