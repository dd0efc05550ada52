// The pixels of a block, gathered: one that equals the pixel before it shares its slot, so that a
// colour is searched once for each streak of it.
ghost use Rattle.std.specs.Prelude.{◌/◌, ◌≤◌, length};
ghost use Rattle.map_slots.specs.Gathering.{most_slots, pixel_key, Gathered};

// Gathers the pixels of `strip`: `keys` gets the key of each streak of equal ones at its slot,
// and `which` the slot of each pixel. Answers how many slots there are. No branch is made on a
// pixel: the key of one that shares its slot is stored there again. Requires at most 1024 pixels,
// and room for them.
pub fn gather(strip: &[u8], keys: &mut [u32], which: &mut [u16]) -> usize
    requires { (length strip.now / 3 ≤ length keys.old)
        × (length strip.now / 3 ≤ length which.old) × (length strip.now / 3 ≤ most_slots) }
    ensures { Gathered (pixel_key strip.now) (length strip.now / 3)
        keys.new which.new result }
{
    let mut slots = 0;
    let mut last = u32::MAX;
    // Not by `chunks_exact`, which is no plainer to prove: its loop is known by what is left of it.
    for i in 0..strip.len() / 3 {
        let key = colour::key_at(strip, 3 * i);
        slots += usize::from(key != last);
        let slot = slots - 1;
        keys[slot] = key;
        which[i] = slot as u16;
        last = key;
    }
    slots
}
