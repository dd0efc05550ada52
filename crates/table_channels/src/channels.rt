// The levels of pixels, added up channel by channel.
ghost use Rattle.std.specs.Prelude.{◌≡◌, [], ◌∷◌, ◌≤◌, length};
ghost use Rattle.table_streaks.specs.{most_streaks};
ghost use Rattle.table_channels.specs.Sums.{channel_sums, streak_sums, together, SumsLow};

use super::ChannelSums;
use std::ops::Add;
use table_streaks::streak::{streak_key, streak_pixels};

// The levels of one pixel with this key.
pub fn pixel_sums(key: u32) -> ChannelSums
    ensures { result ≡ channel_sums (key ∷ []) }
{
    ChannelSums {
        red: u64::from(colour::red_of(key)),
        green: u64::from(colour::green_of(key)),
        blue: u64::from(colour::blue_of(key)),
    }
}

// The sums of two lots of pixels together. Requires sums that a table may have.
impl Add for ChannelSums {
    type Output = ChannelSums;

    ghost can_add = { λ a b. SumsLow a × SumsLow b };

    ghost add_gives = { λ a b sums. sums ≡ together a b };

    fn add(self, other: ChannelSums) -> ChannelSums {
        ChannelSums {
            red: self.red + other.red,
            green: self.green + other.green,
            blue: self.blue + other.blue,
        }
    }
}

// The levels of the pixels in streaks: a streak has the levels of its key once for each of its
// pixels. 65,536 streaks of 256 pixels come to 4,278,190,080 at the most, so that 32 bits will do.
pub fn streak_sums(list: &[u32]) -> ChannelSums
    requires { length list.now ≤ most_streaks }
    ensures { result ≡ streak_sums list.now }
{
    let mut red: u32 = 0;
    let mut green: u32 = 0;
    let mut blue: u32 = 0;
    for &streak in list {
        let key = streak_key(streak);
        let pixels = streak_pixels(streak);
        red += pixels * colour::red_of(key);
        green += pixels * colour::green_of(key);
        blue += pixels * colour::blue_of(key);
    }
    ChannelSums {
        red: u64::from(red),
        green: u64::from(green),
        blue: u64::from(blue),
    }
}
