// A streak taken apart.
ghost use Rattle.std.specs.Prelude.{◌≡◌, ◌≤◌};
ghost use Rattle.colour.specs.{most_key};
ghost use Rattle.table_streaks.specs.Streak.{streak_key, streak_pixels};

// The key of a streak.
pub fn streak_key(streak: u32) -> u32
    ensures { (result ≡ streak_key streak) × (result ≤ most_key) }
{
    streak / 256
}

// The pixels of a streak.
pub fn streak_pixels(streak: u32) -> u32
    ensures { (result ≡ streak_pixels streak) × (result ≤ 256) }
{
    streak % 256 + 1
}
