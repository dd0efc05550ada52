// The table across the boundary.
ghost use Rattle.table.specs.{add_strip};
ghost use Rattle.arrays.specs.{record_in};
ghost use Rattle.kohlenfloh.specs.Crossing.{AddCrosses};

// Adds a strip's pixels to the table: table::add_strip. The record is read from its array, and left
// there as it is then; `taken` receives the pixels taken.
// Refuses, in this order: 1 BAD STRIP, 2 BAD TABLE, 3 FULL. 1 and 2 leave everything as it came and
// 0 taken; 3 leaves the record and the table of the pixels taken.
pub fn kf_add_strip(
    rec: &mut [u64; 5],
    keys: &mut [u32],
    weights: &mut [u32],
    strip: &[u8],
    taken: &mut [u64; 1],
) -> u32
    ensures { AddCrosses (add_strip (record_in rec.old) keys.old
        weights.old strip.now)
        result rec.new keys.new weights.new taken.new }
{
    let a = table::add_strip(arrays::record_in(rec), keys, weights, strip);
    *rec = arrays::record_left(a);
    *taken = [a.taken as u64];
    u32::from(refusal::number_in(a.refusal))
}
