// Pixels of a strip, tried at once: one alone where they are few, else a list of streaks.
ghost use Rattle.std.specs.Prelude.{◌≤◌, ◌<◌, length};
ghost use Rattle.table_streaks.specs.{most_streaks};
ghost use Rattle.table_add.specs.Trying.{Addable, Tried};

use table_channels::{ChannelSums, pixel_sums, streak_sums};
use table_count::count::count_with;
use table_merge::merge::merge;
use table_pixel::pixel::add_pixel;

// Pixels tried, the number of entries with them, and their levels added up.
#[derive(Clone, Copy)]
pub struct Chunk {
    pub used: usize,
    pub pixels: usize,
    pub sums: ChannelSums,
}

// The pixel at `from`, as a chunk of one.
pub fn add_one(
    keys: &mut [u32],
    weights: &mut [u32],
    used: usize,
    room: usize,
    strip: &[u8],
    from: usize,
) -> Chunk
    requires { Addable used room keys.old weights.old strip.now from 1 }
    ensures { Tried used room keys.old weights.old strip.now
        from 1 result.used result.pixels result.sums keys.new weights.new }
{
    let key = colour::key_at(strip, 3 * from);
    let next = add_pixel(keys, weights, used, room, key);
    Chunk {
        used: next,
        pixels: 1,
        sums: pixel_sums(key),
    }
}

// Pixels from `from` on, `most` at the most: as many as the list holds as streaks. The two lists
// are room to work in, of at most 65,536 places.
fn add_chunk(
    keys: &mut [u32],
    weights: &mut [u32],
    used: usize,
    room: usize,
    strip: &[u8],
    from: usize,
    most: usize,
    list: &mut [u32],
    other: &mut [u32],
) -> Chunk
    requires addable { Addable used room keys.old weights.old strip.now from most }
    requires list_nonzero { (0 < length list.old) × (length list.old ≤ most_streaks)
        × (length list.old ≤ length other.old) }
    ensures { Tried used room keys.old weights.old strip.now
        from most result.used result.pixels result.sums keys.new weights.new }
{
    let got = table_streaks::gather::gather(strip, from, most, list);
    let pixels = got.pixels;
    let streaks = &mut list[..got.len];
    table_sort::sort::sort_streaks(streaks, other);
    let sums = streak_sums(streaks);
    let next = count_with(keys, used, streaks);
    if next <= room {
        merge(keys, weights, used, next, streaks);
    }
    Chunk {
        used: next,
        pixels,
        sums,
    }
}

// The same with lists as long as the pixels want: none for one pixel where they are few.
pub fn add_some(
    keys: &mut [u32],
    weights: &mut [u32],
    used: usize,
    room: usize,
    strip: &[u8],
    from: usize,
    most: usize,
) -> Chunk
    requires { Addable used room keys.old weights.old strip.now from most }
    ensures { Tried used room keys.old weights.old strip.now
        from most result.used result.pixels result.sums keys.new weights.new }
{
    if most < 32 {
        return add_one(keys, weights, used, room, strip, from);
    }
    if most <= 4096 {
        let mut list = [0u32; 4096];
        let mut other = [0u32; 4096];
        return add_chunk(
            keys, weights, used, room, strip, from, most, &mut list, &mut other,
        );
    }
    let mut list = [0u32; 65536];
    let mut other = [0u32; 65536];
    add_chunk(
        keys, weights, used, room, strip, from, most, &mut list, &mut other,
    )
}
