// The table's record in an array.
ghost use Rattle.std.specs.Prelude.{◌≡◌};
ghost use Rattle.arrays.specs.Arrays.{record_in, record_numbers};

use table::{Added, Record};

// The record in an array: used entries, pixels, and the sums of R, G and B.
pub fn record_in(rec: &[u64; 5]) -> Record
    ensures { result ≡ record_in rec.now }
{
    Record {
        used: rec[0] as usize,
        pixels: rec[1],
        red: rec[2],
        green: rec[3],
        blue: rec[4],
    }
}

// The record that an add leaves, as an array.
pub fn record_left(a: Added) -> [u64; 5]
    ensures { result ≡ record_numbers a.rec }
{
    [
        a.rec.used as u64,
        a.rec.pixels,
        a.rec.red,
        a.rec.green,
        a.rec.blue,
    ]
}
