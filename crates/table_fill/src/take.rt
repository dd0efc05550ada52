// Taking the pixels of a strip into a sound table, from first to last, until one does not go in.
ghost use Rattle.std.specs.Prelude.{◌≡◌, ◌*◌, ◌≤◌, length, take};
ghost use Rattle.colour.specs.{most_pixels};
ghost use Rattle.table_entries.specs.{entries, pixels_of, strip_keys};
ghost use Rattle.table_pixel.specs.{Standing};
ghost use Rattle.table_fill.specs.Taking.{Able, TookMeets};

use table_add::chunk::{add_one, add_some};
use table_channels::ChannelSums;

// The used entries, the pixels taken, and their levels added up.
#[derive(Clone, Copy)]
pub struct Took {
    pub used: usize,
    pub taken: usize,
    pub sums: ChannelSums,
}

// Whether so few pixels are quicker taken one by one: a pixel moves the entries above it, where a
// chunk is sorted and walks the table. Either way takes the same pixels.
fn is_few(end: usize, used: usize) -> bool {
    if used < 512 { end <= 256 } else { end < 32 }
}

// Takes the first `end` pixels one by one.
fn take_few(
    keys: &mut [u32],
    weights: &mut [u32],
    used: usize,
    room: usize,
    strip: &[u8],
    end: usize,
) -> Took
    requires { Able used room keys.old weights.old strip.now end }
    ensures { TookMeets room (entries used keys.old weights.old)
        (take end (strip_keys strip.now)) keys.old weights.old
        result.used result.taken result.sums keys.new weights.new }
{
    let mut now_used = used;
    let mut sums = ChannelSums {
        red: 0,
        green: 0,
        blue: 0,
    };
    for taken in 0..end {
        let got = add_one(keys, weights, now_used, room, strip, taken);
        let next = got.used;
        if room < next {
            return Took {
                used: now_used,
                taken,
                sums,
            };
        }
        now_used = next;
        sums = sums + got.sums;
    }
    Took {
        used: now_used,
        taken: end,
        sums,
    }
}

// Takes the first `end` pixels in chunks. A chunk that does not go in whole is tried again by half;
// one pixel that does not go in ends it.
fn take_many(
    keys: &mut [u32],
    weights: &mut [u32],
    used: usize,
    room: usize,
    strip: &[u8],
    end: usize,
) -> Took
    requires { Able used room keys.old weights.old strip.now end }
    ensures { TookMeets room (entries used keys.old weights.old)
        (take end (strip_keys strip.now)) keys.old weights.old
        result.used result.taken result.sums keys.new weights.new }
{
    let mut now_used = used;
    let mut taken = 0;
    let mut sums = ChannelSums {
        red: 0,
        green: 0,
        blue: 0,
    };
    let mut limit = end;
    while taken < end {
        let most = limit.min(end - taken);
        let got = add_some(keys, weights, now_used, room, strip, taken, most);
        let next = got.used;
        let pixels = got.pixels;
        if next <= room {
            now_used = next;
            taken += pixels;
            sums = sums + got.sums;
        } else {
            if pixels < 2 {
                return Took {
                    used: now_used,
                    taken,
                    sums,
                };
            }
            limit = pixels / 2;
        }
    }
    Took {
        used: now_used,
        taken,
        sums,
    }
}

// Takes the `count` pixels of a strip, no more of them than the pixel total allows.
// The two calls of `take_many` keep it a function of its own, so that a few pixels do not pay for
// its lists.
pub fn take_strip(
    keys: &mut [u32],
    weights: &mut [u32],
    used: usize,
    before: u64,
    room: usize,
    strip: &[u8],
    count: usize,
) -> Took
    requires standing { Standing used room keys.old weights.old }
    requires weights_value { (pixels_of (entries used keys.old weights.old) ≡ before)
        × (before ≤ most_pixels) }
    requires strip_len { length strip.now ≡ 3 * count }
    ensures { TookMeets room (entries used keys.old weights.old)
        (strip_keys strip.now) keys.old weights.old
        result.used result.taken result.sums keys.new weights.new }
{
    let space = (colour::MOST_PIXELS - before) as usize;
    let end = count.min(space);
    if is_few(end, used) {
        return take_few(keys, weights, used, room, strip, end);
    }
    if count < space {
        return take_many(keys, weights, used, room, strip, count);
    }
    take_many(keys, weights, used, room, strip, space)
}
