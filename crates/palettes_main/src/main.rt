// Palettes of groups that are made and refused: each call's answer and the bytes that it leaves,
// held to the file stdout beside src/. A line is the refusal and seven lent bytes, three for each
// of two shades and one past them, which are nines before the call.
#![tactic(auto)]

use palette_groups::palette_from_groups;
use printing::{field, row};
use refusal::{Refusal, number_in};
use std::io;
use table::Record;

// The line of a call.
fn line(rt: &impl Print, answer: Result<(), Refusal>, palette: &[u8; 7]) -> io::Result<()> {
    field(rt, number_in(answer.err()))?;
    row(rt, palette)?;
    println!(rt)
}

// The record of two red colours: so many pixels, and so many levels of red.
fn reds(pixels: u64, red: u64) -> Record {
    Record {
        used: 2,
        pixels,
        red,
        green: 0,
        blue: 0,
    }
}

// A call on two colours, and its line.
fn show(
    rt: &impl Print,
    rec: Record,
    keys: &[u32; 2],
    weights: &[u32; 2],
    coordinates: &[u32],
    members: &[u32],
) -> io::Result<()> {
    let mut palette = [9u8; 7];
    let answer = palette_from_groups(rec, keys, weights, coordinates, members, &mut palette);
    line(rt, answer, &palette)
}

// Means of levels 10 and 11, both in shade 0: 10 and 15/32 (sheet H), a half and just above it; and
// each in a shade of its own, the other way round. A shade with no group has its own levels.
fn means(rt: &impl Print) -> io::Result<()> {
    let keys = [655360u32, 720896];
    let shades = [168u32, 0, 0, 7, 8, 4080];
    show(rt, reds(32, 335), &keys, &[17, 15], &shades, &[0, 0])?;
    show(rt, reds(32, 336), &keys, &[16, 16], &shades, &[0, 0])?;
    show(rt, reds(32, 337), &keys, &[15, 17], &shades, &[0, 0])?;
    show(rt, reds(32, 335), &keys, &[17, 15], &shades, &[1, 0])
}

// The most pixels of the highest level, with a member past the used entry that is no shade's
// number; and an empty table.
fn limits(rt: &impl Print) -> io::Result<()> {
    let keys = [16777215u32, 0];
    let weights = [16777216u32, 0];
    let shades = [0u32, 0, 0, 4071, 4072, 4080];
    let white = Record {
        used: 1,
        pixels: 16777216,
        red: 4278190080,
        green: 4278190080,
        blue: 4278190080,
    };
    show(rt, white, &keys, &weights, &shades, &[0, 4294967295])?;
    let empty = Record {
        used: 0,
        pixels: 0,
        red: 0,
        green: 0,
        blue: 0,
    };
    show(rt, empty, &keys, &weights, &shades, &[])
}

// What is refused, each fault with all those that stand behind it: a red sum that is not the
// table's, coordinates that are not whole shades, one above 4080 of a shade with a group, too few
// members, and a member at the count.
fn refused(rt: &impl Print) -> io::Result<()> {
    let keys = [655360u32, 720896];
    let weights = [17u32, 15];
    let off = [4081u32, 0, 0, 0, 0, 0];
    let shades = [4080u32, 0, 0, 0, 0, 0];
    show(rt, reds(32, 336), &keys, &weights, &off[..5], &[2])?;
    show(rt, reds(32, 335), &keys, &weights, &off[..5], &[2])?;
    show(rt, reds(32, 335), &keys, &weights, &off, &[2])?;
    show(rt, reds(32, 335), &keys, &weights, &shades, &[2])?;
    show(rt, reds(32, 335), &keys, &weights, &shades, &[0, 2])
}

// Three shades and seven bytes: too few; then just enough for two.
fn rooms(rt: &impl Print) -> io::Result<()> {
    let keys = [655360u32, 720896];
    let shades = [160u32, 0, 0, 0, 0, 0, 0, 0, 0];
    show(rt, reds(32, 335), &keys, &[17, 15], &shades, &[0, 3])?;
    let mut six = [9u8; 6];
    let answer = palette_from_groups(
        reds(32, 335),
        &keys,
        &[17, 15],
        &shades[..6],
        &[0, 1],
        &mut six,
    );
    line(
        rt,
        answer,
        &[six[0], six[1], six[2], six[3], six[4], six[5], 9],
    )
}

fn main(rt: HostRuntime) -> io::Result<()> {
    means(&rt)?;
    limits(&rt)?;
    refused(&rt)?;
    rooms(&rt)
}
