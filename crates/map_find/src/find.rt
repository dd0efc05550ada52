// The slots of a block searched: their colours are laid out, an array a channel, and look at one
// shade after the other.
ghost use Rattle.std.specs.Prelude.{◌≡◌, ◌<◌, ◌≤◌, length};
ghost use Rattle.number.specs.{fill};
ghost use Rattle.shades.specs.{Shades, levels_at, packed_nearest};
ghost use Rattle.search_all.specs.{RoomFor};

// The nearest of the first `count` of `shades` to the colour of each of the keys, distance and
// number in one, into the front of `best`, the rest of which stays; the three lists before it are
// where the colours are laid out. Requires some shades on the grid, and room.
pub fn search_slots(
    keys: &[u32],
    shades: &[u32],
    count: usize,
    reds: &mut [u16],
    greens: &mut [u16],
    blues: &mut [u16],
    best: &mut [u32],
)
    requires { Shades count shades.now × (0 < count) × (length keys.now ≤ length best.old)
        × RoomFor (length keys.now) reds.old greens.old blues.old }
    ensures { best.new
        ≡ fill (length keys.now)
        (λ q. packed_nearest shades.now count (levels_at keys.now q))
        best.old }
{
    search_all::lay_out::<1>(keys, reds, greens, blues);
    search_all::search_points(reds, greens, blues, shades, count, &mut best[..keys.len()]);
}
