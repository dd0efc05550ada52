// The calls of the crate table.
use table::{Added, Record};

// Adding a strip.
pub fn add_strip(rec: Record, keys: &mut [u32], weights: &mut [u32], strip: &[u8]) -> Added {
    table::add_strip(rec, keys, weights, strip)
}

// The test of a table.
pub fn bad_table(rec: Record, keys: &[u32], weights: &[u32]) -> bool {
    table::bad_table(rec, keys, weights)
}

// The room of two slices.
pub fn room_of(keys: usize, weights: usize) -> usize {
    table::room_of(keys, weights)
}
