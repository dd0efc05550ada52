// What an entry gives to its group's sums, and the sums themselves.
ghost use Rattle.std.specs.Prelude.{◌≡◌, ◌+◌, ◌*◌, ◌/◌, ◌%◌, ◌<◌, ◌≤◌, get_or};
ghost use Rattle.colour.specs.{most_pixels, most_distance};
ghost use Rattle.level_sums.specs.{red_green, blue_pixels};
ghost use Rattle.shades.specs.{most_shades};
ghost use Rattle.group_sums.specs.Summing.{placed, raised, lowered};

use super::Gift;
use level_sums::{blue_pixels, red_green};

// What an entry gives, with the distance and number of its shade in `best`. Requires a table's
// weight and a distance of the grid.
pub fn gift_of(weight: u32, key: u32, best: u32) -> Gift
    requires { (weight ≤ most_pixels) × (best / most_shades ≤ most_distance) }
    ensures number { result.number ≡ best % most_shades }
    ensures cost { result.cost ≡ weight * (best / most_shades) }
    ensures first { result.first ≡ weight * red_green key }
    ensures second { result.second ≡ weight * blue_pixels key }
{
    Gift {
        number: best % 64,
        cost: shades::cost(weight, best / 64),
        first: red_green(weight, key),
        second: blue_pixels(weight, key),
    }
}

// Puts `first` and `second` in the places of the two sums of group `q`.
fn put(sums: &mut [u64; 128], q: usize, first: u64, second: u64)
    requires { q < most_shades }
    ensures { sums.new ≡ placed sums.old q first second }
{
    let a = 2 * q;
    sums[a] = first;
    sums[a + 1] = second;
}

// Adds `first` and `second` to the two sums of group `q`. Requires that the sums stay below 2^64.
pub fn raise(sums: &mut [u64; 128], q: usize, first: u64, second: u64)
    requires { (q < most_shades) × (get_or sums.old (2 * q) 0 + first ≤ 18446744073709551615)
        × (get_or sums.old (2 * q + 1) 0 + second ≤ 18446744073709551615) }
    ensures { sums.new ≡ raised sums.old q first second }
{
    let a = 2 * q;
    let red_green = sums[a] + first;
    let blue_pixels = sums[a + 1] + second;
    put(sums, q, red_green, blue_pixels);
}

// Takes `first` and `second` from the two sums of group `q`. Requires that they are in them.
pub fn lower(sums: &mut [u64; 128], q: usize, first: u64, second: u64)
    requires { (q < most_shades) × (first ≤ get_or sums.old (2 * q) 0)
        × (second ≤ get_or sums.old (2 * q + 1) 0) }
    ensures { sums.new ≡ lowered sums.old q first second }
{
    let a = 2 * q;
    let red_green = sums[a] - first;
    let blue_pixels = sums[a + 1] - second;
    put(sums, q, red_green, blue_pixels);
}
