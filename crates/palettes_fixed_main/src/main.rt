// Palettes of groups with fixed shades that are made and refused: each call's answer and the bytes
// that it leaves, held to the file stdout beside src/. A line is the refusal and seven lent bytes,
// three for each of two shades and one past them, which are nines before the call.
#![tactic(auto)]

use palette_groups::palette_from_groups_fixed;
use printing::{field, row};
use refusal::{Refusal, number_in};
use std::io;
use table::Record;

// The line of a call.
fn line(rt: &impl Print, answer: Result<(), Refusal>, palette: &[u8; 7]) -> io::Result<()> {
    field(rt, number_in(answer.err()))?;
    row(rt, palette)?;
    println!(rt)
}

// The record of two red colours: so many pixels, and so many levels of red.
fn reds(pixels: u64, red: u64) -> Record {
    Record {
        used: 2,
        pixels,
        red,
        green: 0,
        blue: 0,
    }
}

// A call on two colours with so many fixed shades, and its line.
fn show_fixed(
    rt: &impl Print,
    rec: Record,
    keys: &[u32; 2],
    weights: &[u32; 2],
    coordinates: &[u32],
    members: &[u32],
    fixed: usize,
) -> io::Result<()> {
    let mut palette = [9u8; 7];
    let answer = palette_from_groups_fixed(
        rec,
        keys,
        weights,
        coordinates,
        members,
        fixed,
        &mut palette,
    );
    line(rt, answer, &palette)
}

// Levels 10 and 11, each in a shade of its own at (40, 20, 255). The first shade has the mean of
// its group; fixed it has its own levels, also with no group, where both colours are in the second,
// which is free and has their mean. Coordinates 7, 8 and 4071 of a fixed shade are no whole levels
// and go to the nearest, a half up: 0, 1 and 254.
fn fixed_shades(rt: &impl Print) -> io::Result<()> {
    let keys = [655360u32, 720896];
    let weights = [17u32, 15];
    let rec = reds(32, 335);
    let far = [640u32, 320, 4080, 640, 320, 4080];
    show_fixed(rt, rec, &keys, &weights, &far, &[0, 1], 0)?;
    show_fixed(rt, rec, &keys, &weights, &far, &[0, 1], 1)?;
    show_fixed(rt, rec, &keys, &weights, &far, &[1, 1], 1)?;
    let between = [7u32, 8, 4071, 640, 320, 4080];
    show_fixed(rt, rec, &keys, &weights, &between, &[0, 1], 1)
}

// No free shade: two of two are fixed, with a red sum that is not the table's, which is told first,
// and then with a coordinate above 4080 and too few members, which stand behind; the highest number
// that there is; and one of two, where the coordinate is told. Of 64 shades 63 may be fixed, so
// that the bytes are what is too few, and 64 may not.
fn no_free_shade(rt: &impl Print) -> io::Result<()> {
    let keys = [655360u32, 720896];
    let weights = [17u32, 15];
    let rec = reds(32, 335);
    let off = [4081u32, 0, 0, 0, 0, 0];
    show_fixed(rt, reds(32, 336), &keys, &weights, &off, &[2], 2)?;
    show_fixed(rt, rec, &keys, &weights, &off, &[2], 2)?;
    show_fixed(rt, rec, &keys, &weights, &off, &[2], 18446744073709551615)?;
    show_fixed(rt, rec, &keys, &weights, &off, &[2], 1)?;
    let many = [0u32; 192];
    show_fixed(rt, rec, &keys, &weights, &many, &[0, 63], 63)?;
    show_fixed(rt, rec, &keys, &weights, &many, &[0, 63], 64)
}

fn main(rt: HostRuntime) -> io::Result<()> {
    fixed_shades(&rt)?;
    no_free_shade(&rt)
}
