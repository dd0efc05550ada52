// The slots of a block joined: those with one key become one slot, wherever they stand.
ghost use Rattle.std.specs.Prelude.{◌≤◌, length};
ghost use Rattle.map_slots.specs.{slot_key, Gathered, Takes};
ghost use Rattle.map_join.specs.Joining.{few_slots};

// The slot that `key` takes where those with the keys `taken` are taken: `slot`, if it is one of
// them and the key stands there, else the next.
fn slot_for(taken: &[u32], slot: usize, key: u32) -> usize
    ensures { Takes taken.now (length taken.now) key result }
{
    if slot < taken.len() && taken[slot] == key {
        slot
    } else {
        taken.len()
    }
}

// Joins slots: the front of `keys`, which has the key of each, gets the keys of the joined slots,
// and `link` the joined slot of each of the slots. Answers how many joined slots there are. A key
// looks for its slot at the site of its remainder, which tells the slot of the last key that came
// there, and is believed where that is the same key. A key whose site another took gets a second
// slot. Requires at most 256 slots, and room for them.
pub fn join(keys: &mut [u32], link: &mut [u8]) -> usize
    requires { (length keys.old ≤ length link.old) × (length keys.old ≤ few_slots) }
    ensures { Gathered (slot_key keys.old) (length keys.old) keys.new
        link.new result }
{
    let mut sites = [0usize; 251];
    let mut taken = 0;
    for i in 0..keys.len() {
        let key = keys[i];
        let site = (key % 251) as usize;
        let slot = slot_for(&keys[..taken], sites[site], key);
        keys[slot] = key;
        sites[site] = slot;
        link[i] = slot as u8;
        taken = taken.max(slot + 1);
    }
    taken
}
