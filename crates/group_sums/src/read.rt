// The sums of a group, read.
ghost use Rattle.std.specs.Prelude.{◌≡◌, ◌<◌};
ghost use Rattle.shades.specs.{most_shades};
ghost use Rattle.group_sums.specs.Reading.{group_pixels, level_sum};

use level_sums::{high, low};

// The pixel count of group `q`. Requires one of 64 groups.
pub fn pixels_of(sums: &[u64; 128], q: usize) -> u64
    requires { q < most_shades }
    ensures { result ≡ group_pixels sums.now q }
{
    low(sums[2 * q + 1])
}

// The sum of channel `axis` over group `q`, in whole levels. Requires one of three channels and of
// 64 groups.
pub fn level_sum(sums: &[u64; 128], axis: usize, q: usize) -> u64
    requires { (axis < 3) × (q < most_shades) }
    ensures { result ≡ level_sum sums.now axis q }
{
    let a = 2 * q;
    [high(sums[a]), low(sums[a]), high(sums[a + 1])][axis]
}
