// The sheets that are run: each call's answer, and the slices that it leaves, held to the file
// stdout beside src/. A line is refusal, taken, used, pixels, the sums of R, G and B, three keys,
// three weights.
#![tactic(auto)]

use printing::{field, row};
use std::io;
use table::{Added, Record};

// One line.
fn show(rt: &impl Print, a: Added, keys: &[u32; 3], weights: &[u32; 3]) -> io::Result<()> {
    let rec = a.rec;
    field(rt, refusal::number_in(a.refusal))?;
    field(rt, a.taken)?;
    field(rt, rec.used)?;
    row(rt, &[rec.pixels, rec.red, rec.green, rec.blue])?;
    row(rt, keys)?;
    row(rt, weights)?;
    println!(rt)
}

fn record(used: usize, pixels: u64, red: u64, green: u64, blue: u64) -> Record {
    Record {
        used,
        pixels,
        red,
        green,
        blue,
    }
}

// Strips on one table of three places: sheet A, a strip that fills it, a bad strip, an empty strip
// on the full table.
fn good_tables(rt: &impl Print, keys: &mut [u32; 3], weights: &mut [u32; 3]) -> io::Result<()> {
    let empty = record(0, 0, 0, 0, 0);
    let drawing = [0u8, 0, 0, 0, 0, 0, 0, 0, 0, 10, 0, 0];
    let first = table::add_strip(empty, keys, weights, &drawing);
    show(rt, first, keys, weights)?;
    let fills = [10u8, 0, 0, 0, 0, 1, 0, 0, 2, 0, 0, 0];
    let second = table::add_strip(first.rec, keys, weights, &fills);
    show(rt, second, keys, weights)?;
    let bad = [1u8, 2];
    let third = table::add_strip(second.rec, keys, weights, &bad);
    show(rt, third, keys, weights)?;
    let none = &bad[..0];
    let fourth = table::add_strip(third.rec, keys, weights, none);
    show(rt, fourth, keys, weights)
}

// Records that are not of the table: a wrong total, more used than there is room, the largest used;
// and a bad strip with one of them.
fn bad_tables(rt: &impl Print, keys: &mut [u32; 3], weights: &mut [u32; 3]) -> io::Result<()> {
    let drawing = [0u8, 0, 0, 0, 0, 0, 0, 0, 0, 10, 0, 0];
    let wrong = record(3, 1, 20, 0, 1);
    let first = table::add_strip(wrong, keys, weights, &drawing);
    show(rt, first, keys, weights)?;
    let over = record(4, 6, 20, 0, 1);
    let second = table::add_strip(over, keys, weights, &drawing);
    show(rt, second, keys, weights)?;
    let largest = record(18446744073709551615, 0, 0, 0, 0);
    let third = table::add_strip(largest, keys, weights, &drawing);
    show(rt, third, keys, weights)?;
    let bad = [1u8, 2];
    let fourth = table::add_strip(wrong, keys, weights, &bad);
    show(rt, fourth, keys, weights)
}

// One strip for a record, and its line.
fn try_record(
    rt: &impl Print,
    rec: Record,
    keys: &mut [u32; 3],
    weights: &mut [u32; 3],
    strip: &[u8],
) -> io::Result<()> {
    let a = table::add_strip(rec, keys, weights, strip);
    show(rt, a, keys, weights)
}

// Records of the table but for a channel sum: one off in red, in green and in blue, two off that
// together come to the same, the largest, and a sum where no entry is used; a bad strip with one of
// them; and the record as it is.
fn other_sums(rt: &impl Print, keys: &mut [u32; 3], weights: &mut [u32; 3]) -> io::Result<()> {
    let none = [0u8; 0];
    try_record(rt, record(3, 6, 21, 0, 1), keys, weights, &none)?;
    try_record(rt, record(3, 6, 20, 1, 1), keys, weights, &none)?;
    try_record(rt, record(3, 6, 20, 0, 0), keys, weights, &none)?;
    try_record(rt, record(3, 6, 19, 256, 1), keys, weights, &none)?;
    let largest = record(3, 6, 20, 18446744073709551615, 1);
    try_record(rt, largest, keys, weights, &none)?;
    try_record(rt, record(0, 0, 0, 0, 1), keys, weights, &none)?;
    let bad = [1u8, 2];
    try_record(rt, record(3, 6, 21, 0, 1), keys, weights, &bad)?;
    try_record(rt, record(3, 6, 20, 0, 1), keys, weights, &none)
}

// 300 pixels of one colour at once, a pixel of another and one of a third, where a slice has room
// for two colours only.
fn many_pixels(rt: &impl Print, keys: &mut [u32; 3]) -> io::Result<()> {
    let strip = [200u8; 900];
    let mut two = [9u32; 2];
    let empty = record(0, 0, 0, 0, 0);
    let first = table::add_strip(empty, keys, &mut two, &strip);
    let one = [1u8, 1, 1];
    let second = table::add_strip(first.rec, keys, &mut two, &one);
    let other = [2u8, 2, 2];
    let third = table::add_strip(second.rec, keys, &mut two, &other);
    let seen = [two[0], two[1], 0];
    show(rt, third, keys, &seen)
}

fn main(rt: HostRuntime) -> io::Result<()> {
    let mut keys = [7u32; 3];
    let mut weights = [9u32; 3];
    good_tables(&rt, &mut keys, &mut weights)?;
    bad_tables(&rt, &mut keys, &mut weights)?;
    other_sums(&rt, &mut keys, &mut weights)?;
    many_pixels(&rt, &mut keys)
}
