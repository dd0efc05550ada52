// Adding a strip: the tests in their order, then its pixels.
ghost use Rattle.std.specs.Prelude.{◌≡◌, Some};
ghost use Rattle.table.specs.Outcomes.{refused, AddMeets};

use super::Added;
use refusal::Refusal;
use table_test::{Record, bad_table, room_of};

// The answer of a refusal before the first pixel: nothing taken, the record as it came.
fn refused(refusal: Refusal, rec: Record) -> Added
    ensures { result ≡ refused (Some refusal) rec }
{
    Added {
        refusal: Some(refusal),
        taken: 0,
        rec,
    }
}

// Adds the pixels of a strip of R, G, B bytes, from first to last, to the table in `keys` and
// `weights`.
// Refuses, in this order:
//   1 BAD STRIP   the strip's bytes are not a multiple of 3;
//   2 BAD TABLE   the record and the used entries are no table (see bad_table);
//   3 FULL        the next pixel meets a total of 16,777,216, or is a new colour with no room.
// 1 and 2 hand the record back and leave both slices as they came. 3 answers the pixels taken, and
// record and slices are those of these pixels. Places past the used entries keep their values. The
// record's channel sums go up by the levels of the pixels taken, no table is gone over for them.
pub fn add_strip(rec: Record, keys: &mut [u32], weights: &mut [u32], strip: &[u8]) -> Added
    ensures { AddMeets rec keys.old weights.old strip.now result
        keys.new weights.new }
{
    if strip.len() % 3 != 0 {
        return refused(Refusal::BadStrip, rec);
    }
    if bad_table(rec, keys, weights) {
        return refused(Refusal::BadTable, rec);
    }
    let used = rec.used;
    let before = rec.pixels;
    let room = room_of(keys.len(), weights.len());
    let count = strip.len() / 3;
    let took = table_fill::take_strip(keys, weights, used, before, room, strip, count);
    let taken = took.taken;
    let after = Record {
        used: took.used,
        pixels: before + taken as u64,
        red: rec.red + took.sums.red,
        green: rec.green + took.sums.green,
        blue: rec.blue + took.sums.blue,
    };
    if taken < count {
        return Added {
            refusal: Some(Refusal::Full),
            taken,
            rec: after,
        };
    }
    Added {
        refusal: None,
        taken,
        rec: after,
    }
}
