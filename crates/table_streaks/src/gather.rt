// Gathering the pixels of a strip as streaks of equal ones.
ghost use Rattle.std.specs.Prelude.{◌≡◌, ℕ, ◌+◌, ◌*◌, ◌≤◌, ◌<◌, length, take, drop};
ghost use Rattle.number.specs.{sum_of};
ghost use Rattle.table_entries.specs.{strip_keys};
ghost use Rattle.table_streaks.specs.Streak.{streak_sum, joins_streak};

use super::streak::streak_key;

// Streaks in a list, and the pixels in them.
#[derive(Clone, Copy)]
pub struct Gathered {
    pub len: usize,
    pub pixels: usize,
}

// Whether one pixel more of colour `key` goes into the streak.
fn joins(streak: u32, key: u32) -> bool
    ensures { result ≡ joins_streak streak key }
{
    streak_key(streak) == key && streak % 256 < 255
}

// The pixels from `from` on, `most` at the most, as streaks: as many as the list has places for.
// Requires at least one pixel, all of them in the strip, and at least one place.
pub fn gather(strip: &[u8], from: usize, most: usize, list: &mut [u32]) -> Gathered
    requires { (0 < most) × (3 * (from + most) ≤ length strip.now) × (0 < length list.old) }
    ensures pixels_nonzero { (0 < result.pixels) × (result.pixels ≤ most)
        × (result.len ≤ length list.old) }
    ensures by_index { (f : ℕ → ℕ) → sum_of (streak_sum f) (take result.len list.new)
        ≡ sum_of f (take result.pixels (drop from (strip_keys strip.now))) }
{
    let mut streak = 256 * colour::key_at(strip, 3 * from);
    let mut len = 0;
    for done in 1..most {
        let key = colour::key_at(strip, 3 * (from + done));
        if joins(streak, key) {
            streak += 1;
        } else {
            list[len] = streak;
            len += 1;
            if len == list.len() {
                return Gathered { len, pixels: done };
            }
            streak = 256 * key;
        }
    }
    list[len] = streak;
    Gathered {
        len: len + 1,
        pixels: most,
    }
}
