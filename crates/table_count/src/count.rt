// Entries counted, of a table with sorted streaks, in one walk from the back.
ghost use Rattle.std.specs.Prelude.{◌≡◌, ℕ, ◌≤◌, List, cond, length, get_or, ltb};
ghost use Rattle.table_streaks.specs.{streak_key, most_streaks};
ghost use Rattle.table_back.specs.{InOrder};
ghost use Rattle.table_count.specs.Giving.{with_streaks};

use table_back::back::place_back;

// Above every key: the first key done where there is none.
pub const PAST_KEYS: u32 = 16777216;

// The first key from `at` on: the key there where `at` is below `i`, else `last`.
fn first_key(keys: &[u32], at: usize, i: usize, last: u32) -> u32
    requires { i ≤ length keys.now }
    ensures { result ≡ cond (ltb at i) (get_or keys.now at 0) last }
{
    if at < i { keys[at] } else { last }
}

// How many entries the table has with the streaks. Requires that keys and streaks rise.
pub fn count_with(keys: &[u32], used: usize, list: &[u32]) -> usize
    requires used_in_bounds { (used ≤ length keys.now) × (length list.now ≤ most_streaks) }
    requires in_order { InOrder (λ k. k) used keys.now }
    requires in_order_2 { InOrder streak_key (length list.now) list.now }
    ensures { (ws : List ℕ) → used ≤ length ws
        → result ≡ length (with_streaks (length list.now) list.now used keys.now ws) }
{
    let mut i = used;
    let mut count = used;
    let mut last = PAST_KEYS;
    for &streak in list.iter().rev() {
        let key = table_streaks::streak::streak_key(streak);
        let at = place_back(keys, i, key);
        let first = first_key(keys, at, i, last);
        count += usize::from(key != first);
        i = at;
        last = key;
    }
    count
}
