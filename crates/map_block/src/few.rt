// A block with few slots: these are joined, searched, and told of.
ghost use Rattle.std.specs.Prelude.{◌≡◌, ◌<◌, ◌≤◌, length};
ghost use Rattle.number.specs.{fill};
ghost use Rattle.shades.specs.{Shades};
ghost use Rattle.map_errors.specs.{misses_of};
ghost use Rattle.map_slots.specs.{most_slots, levels_of};
ghost use Rattle.map_block.specs.Blocks.{FewTaken, nearest_at};

use super::Scratch;
use map_errors::Errors;
use map_find::search_slots;
use map_join::join;
use map_tell::tell::{add_told, tell};

// Maps pixels to the first `count` of `shades`: the colour of each is that with the key at its
// slot, both as `scratch` has them, one of the first `slots`. Requires some shades on the grid, and
// at most 256 slots and 1024 pixels.
pub fn map_few(
    scratch: &mut Scratch,
    slots: usize,
    shades: &[u32],
    count: usize,
    index: &mut [u8],
) -> Errors
    requires { Shades count shades.now × (0 < count) × (length index.old ≤ most_slots)
        × FewTaken (length index.old) scratch.old.which slots }
    ensures index { index.new
        ≡ fill (length index.old)
        (nearest_at shades.now count (levels_of scratch.old.keys scratch.old.which))
        index.old }
    ensures errors { result
        ≡ misses_of (levels_of scratch.old.keys scratch.old.which) shades.now
        (nearest_at shades.now count (levels_of scratch.old.keys scratch.old.which))
        (length index.old) }
{
    let mut link = [0u8; 256];
    let mut told = [0u32; 1024];
    let joined = join(&mut scratch.keys[..slots], &mut link);
    search_slots(
        &scratch.keys[..joined],
        shades,
        count,
        &mut scratch.reds,
        &mut scratch.greens,
        &mut scratch.blues,
        &mut scratch.best,
    );
    tell(
        &scratch.keys,
        &link[..slots],
        &scratch.best,
        shades,
        &mut told,
    );
    add_told(&scratch.which, &told, index)
}
