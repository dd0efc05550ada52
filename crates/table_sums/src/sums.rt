// Two numbers for three sums.
ghost use Rattle.std.specs.Prelude.{◌≡◌, not, ℕ, ◌*◌, ◌≤◌, ◌<◌, get_or};
ghost use Rattle.colour.specs.{most_key, most_pixels, red_of, blue_of};
ghost use Rattle.table_entries.specs.{Tabled};
ghost use Rattle.table_sums.specs.Telling.{mix_of, red_sum, green_sum, blue_sum, Two, three_same};

use super::TwoSums;
use colour::MOST_SUM;

// A weight times a number of 32 bits, in 64 bits. Requires a table's weight.
fn times(weight: u32, x: u32) -> u64
    requires { weight ≤ most_pixels }
    ensures { result ≡ weight * x }
{
    u64::from(weight) * u64::from(x)
}

// What the second number has of a key: the red level, and 16777216 times the blue one. Requires a
// key.
fn mix_of(key: u32) -> u32
    requires { key ≤ most_key }
    ensures { result ≡ mix_of (red_of key) (blue_of key) }
{
    key % 256 * 16777216 + key / 65536
}

// Both numbers over the entries of a table. Requires that it is one, and that its keys are keys.
pub fn two_sums(keys: &[u32], weights: &[u32], used: usize) -> TwoSums
    requires { Tabled used keys.now weights.now
        × ((i : ℕ) → i < used → get_or keys.now i 0 ≤ most_key) }
    ensures { Two (red_sum used keys.now weights.now)
        (green_sum used keys.now weights.now)
        (blue_sum used keys.now weights.now) result.first result.second }
{
    let mut first: u64 = 0;
    let mut second: u64 = 0;
    for i in 0..used {
        first += times(weights[i], keys[i]);
        second += times(weights[i], mix_of(keys[i]));
    }
    TwoSums { first, second }
}

// Whether `red`, `green` and `blue` are others than the sums that gave both numbers.
pub fn other_sums(red: u64, green: u64, blue: u64, first: u64, second: u64) -> bool
    ensures { (reds greens blues : ℕ) → Two reds greens blues first second
        → result ≡ not (three_same reds greens blues red green blue) }
{
    if MOST_SUM < red {
        return true;
    }
    if MOST_SUM < green {
        return true;
    }
    if MOST_SUM < blue {
        return true;
    }
    if 65536 * red + 256 * green + blue != first {
        return true;
    }
    red + 16777216 * blue != second
}
