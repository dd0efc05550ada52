// A byte for each channel of each shade: the mean of its group, or its own level.
ghost use Rattle.std.specs.Prelude.{◌≡◌, ◌/◌, ◌*◌, ◌<◌, ◌≤◌, length};
ghost use Rattle.number.specs.{fill};
ghost use Rattle.shades.specs.{most_coordinates, OnGrid};
ghost use Rattle.table_entries.specs.{Tabled};
ghost use Rattle.method.specs.{state_of};
ghost use Rattle.group_sums.specs.{Measured, Assigned};
ghost use Rattle.palette_means.specs.Means.{group_palette};
ghost use Rattle.palette_means.specs.Reading.{level_by_sums};

use super::sums::sum_groups;
use group_sums::{level_sum, pixels_of};
use palette::level_of;

// The level of coordinate `i`, where the first `fixed` shades keep their own levels: the mean of
// its group, a half going up, and with no group its own. Requires sums of a table's groups,
// coordinates of shades, and that the coordinate is there.
fn group_level(sums: &[u64; 128], coordinates: &[u32], fixed: usize, i: usize) -> u8
    requires { Measured sums.now × OnGrid coordinates.now × (i < most_coordinates)
        × (i < length coordinates.now) }
    ensures { result ≡ level_by_sums fixed sums.now coordinates.now i }
{
    let q = i / 3;
    if q < fixed {
        return level_of(coordinates[i]);
    }
    let pixels = pixels_of(sums, q);
    if pixels == 0 {
        return level_of(coordinates[i]);
    }
    colour::rounded_mean(pixels, level_sum(sums, i % 3, q)) as u8
}

// The levels of all coordinates, into the front of `palette`, the rest of which stays. Requires
// what group_level does of each, and room.
fn fill_levels(sums: &[u64; 128], coordinates: &[u32], fixed: usize, palette: &mut [u8])
    requires { Measured sums.now × OnGrid coordinates.now
        × (length coordinates.now ≤ most_coordinates)
        × (length coordinates.now ≤ length palette.old) }
    ensures { palette.new
        ≡ fill (length coordinates.now)
        (level_by_sums fixed sums.now coordinates.now)
        palette.old }
{
    for i in 0..coordinates.len() {
        palette[i] = group_level(sums, coordinates, fixed, i);
    }
}

// The palette of the groups that the members tell, into the front of `palette`, the rest of which
// stays; the first `fixed` shades keep their own levels. Requires a table, whole shades of the
// grid, one of 64 groups for each entry, and room.
pub fn fill_by_groups(
    keys: &[u32],
    weights: &[u32],
    used: usize,
    coordinates: &[u32],
    members: &[u32],
    fixed: usize,
    palette: &mut [u8],
)
    requires { Tabled used keys.now weights.now × Assigned used members.now
        × OnGrid coordinates.now
        × (length coordinates.now ≡ 3 * (length coordinates.now / 3))
        × (length coordinates.now ≤ most_coordinates)
        × (length coordinates.now ≤ length palette.old) }
    ensures { palette.new
        ≡ group_palette fixed used keys.now weights.now
        (state_of coordinates.now members.now)
        palette.old }
{
    let mut sums = [0u64; 128];
    sum_groups(keys, weights, used, members, &mut sums);
    fill_levels(&sums, coordinates, fixed, palette);
}
