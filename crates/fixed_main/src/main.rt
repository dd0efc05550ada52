// Runs with shades fixed from stock on small tables, and palettes of their groups: answers and
// slices, held to the file stdout beside src/. A line of a run is refusal, rounds, settled,
// distances, final total; shades 0 to 3 and shade 63; six members and the first five of a hundred
// totals, which are sevens before the call. A line of a palette is refusal, and of 192 bytes, which
// are nines before the call, those of shades 0 to 2 and of shade 63. Limits are 0, which means 100,
// where none is told.
#![tactic(auto)]

ghost use Rattle.std.specs.Prelude.{◌≤◌};

use arrays::{run_numbers, run_shades};
use lloyd::Ran;
use lloyd_fixed::run_fixed;
use palette_groups::palette_from_groups_fixed;
use printing::{field, row};
use refusal::{Refusal, number_in};
use std::io;
use table_test::Record;

// The line of a run.
fn show(
    rt: &impl Print,
    answer: Result<Ran, Refusal>,
    members: &[u32; 6],
    totals: &[u64; 100],
) -> io::Result<()> {
    let shades = run_shades(answer);
    field(rt, number_in(answer.err()))?;
    row(rt, &run_numbers(answer))?;
    row(rt, &shades[..12])?;
    row(rt, &shades[189..])?;
    row(rt, members)?;
    row(rt, &totals[..5])?;
    println!(rt)
}

// The record of a table.
fn record(used: usize, pixels: u64, red: u64, green: u64, blue: u64) -> Record {
    Record {
        used,
        pixels,
        red,
        green,
        blue,
    }
}

// A run with the first members and totals lent, so many of each, and its line. Requires that there
// are so many.
fn show_lent(
    rt: &impl Print,
    rec: Record,
    keys: &[u32; 6],
    weights: &[u32; 6],
    fixed: &[u8],
    count: usize,
    limit: usize,
    places: usize,
    rounds: usize,
) -> io::Result<()>
    requires { (places ≤ 6) × (rounds ≤ 100) }
{
    let mut members = [7u32; 6];
    let mut totals = [7u64; 100];
    let a = run_fixed(
        rec,
        keys,
        weights,
        fixed,
        count,
        limit,
        &mut members[..places],
        &mut totals[..rounds],
    );
    show(rt, a, &members, &totals)
}

// The same with all of them lent.
fn show_run(
    rt: &impl Print,
    rec: Record,
    keys: &[u32; 6],
    weights: &[u32; 6],
    fixed: &[u8],
    count: usize,
    limit: usize,
) -> io::Result<()> {
    show_lent(rt, rec, keys, weights, fixed, count, limit, 6, 100)
}

// A palette of groups, told how many shades are fixed, and its line.
fn show_palette(
    rt: &impl Print,
    rec: Record,
    keys: &[u32; 6],
    weights: &[u32; 6],
    coordinates: &[u32],
    members: &[u32; 6],
    fixed: usize,
) -> io::Result<()> {
    let mut palette = [9u8; 192];
    let answer = palette_from_groups_fixed(
        rec,
        keys,
        weights,
        coordinates,
        members,
        fixed,
        &mut palette,
    );
    field(rt, number_in(answer.err()))?;
    row(rt, &palette[..9])?;
    row(rt, &palette[189..])?;
    println!(rt)
}

// Sheet A's table. A fixed shade that is its second colour: the first is left, just enough for a
// free shade. One that is no colour: it has a group, and stays, though the mean of the group is
// elsewhere. One that is a level of blue off the second colour: both are left, and it has no group.
// Two equal ones: they take one colour away, and the higher number has no group. Two that are no
// colours: both are left, and there are more shades than colours.
// Levels R 0, 10, 20: of two colours as far from the fixed shade the lower key begins a shade; and
// a colour as far from both shades joins the fixed one.
fn starts(rt: &impl Print) -> io::Result<()> {
    let rec = record(2, 4, 10, 0, 0);
    let keys = [0u32, 655360, 0, 0, 0, 0];
    let weights = [3u32, 1, 0, 0, 0, 0];
    show_run(rt, rec, &keys, &weights, &[10, 0, 0], 2, 0)?;
    show_run(rt, rec, &keys, &weights, &[4, 0, 0], 2, 0)?;
    show_run(rt, rec, &keys, &weights, &[10, 0, 1], 3, 0)?;
    show_run(rt, rec, &keys, &weights, &[10, 0, 0, 10, 0, 0], 3, 0)?;
    show_run(rt, rec, &keys, &weights, &[20, 0, 0, 30, 0, 0], 4, 0)?;
    let reds = [0u32, 655360, 1310720, 0, 0, 0];
    let ones = [1u32, 1, 1, 0, 0, 0];
    show_run(rt, record(3, 3, 30, 0, 0), &reds, &ones, &[10, 0, 0], 2, 0)?;
    show_run(rt, record(3, 3, 30, 0, 0), &reds, &ones, &[0, 0, 0], 2, 0)
}

// Colours (2,2,5), (6,0,0), (7,0,0), (11,1,0), (16,2,5). Two fixed shades and two free ones, of
// which one moves. Two shades, of which (1,2,0) is fixed: not settled by a limit of 1, with just
// the room that this asks for; then settled, in four rounds. The palette of these: the fixed shade
// keeps its bytes, though the mean of its group is (2,2,5); the free one has the mean of its group,
// in red 8 and 9/19 and so 8, where its 136 sixteenths would give 9.
fn moves(rt: &impl Print) -> io::Result<()> {
    let rec = record(5, 25, 173, 20, 40);
    let keys = [131589u32, 393216, 458752, 721152, 1049093, 0];
    let weights = [6u32, 6, 7, 4, 2, 0];
    let stock = [1u8, 2, 0, 16, 2, 4];
    show_run(rt, rec, &keys, &weights, &stock, 4, 0)?;
    show_lent(rt, rec, &keys, &weights, &stock[..3], 2, 1, 5, 1)?;
    let mut members = [7u32; 6];
    let mut totals = [7u64; 100];
    let a = run_fixed(
        rec,
        &keys,
        &weights,
        &stock[..3],
        2,
        0,
        &mut members,
        &mut totals,
    );
    show(rt, a, &members, &totals)?;
    let shades = run_shades(a);
    show_palette(rt, rec, &keys, &weights, &shades[..6], &members, 1)
}

// Sheet A's table and 64 shades, of which 63 are fixed, all white and with no group: the free one
// begins at the first colour and moves to the mean of both. Their palette.
fn most_fixed(rt: &impl Print) -> io::Result<()> {
    let rec = record(2, 4, 10, 0, 0);
    let keys = [0u32, 655360, 0, 0, 0, 0];
    let weights = [3u32, 1, 0, 0, 0, 0];
    let mut members = [7u32; 6];
    let mut totals = [7u64; 100];
    let a = run_fixed(
        rec,
        &keys,
        &weights,
        &[255u8; 189],
        64,
        0,
        &mut members,
        &mut totals,
    );
    show(rt, a, &members, &totals)?;
    let shades = run_shades(a);
    show_palette(rt, rec, &keys, &weights, &shades, &members, 63)
}

// What is refused on sheet A's table, each fault with those that stand behind it: a record that is
// not the table's; fixed lists of 0, 4, 190, 191 and 192 bytes; where two shades are fixed, 65, 2,
// 1 and 0 shades; one colour too few, where a fixed shade is a colour and two are free, and where
// 63 are the only colour of a table and one is free; a limit of 201. Then rooms: one member for two
// colours, 100 totals for a limit of 200, and 99 for a limit of 0.
fn refused(rt: &impl Print) -> io::Result<()> {
    let rec = record(2, 4, 10, 0, 0);
    let keys = [0u32, 655360, 0, 0, 0, 0];
    let weights = [3u32, 1, 0, 0, 0, 0];
    let stock = [0u8; 192];
    show_run(rt, record(2, 4, 11, 0, 0), &keys, &weights, &[], 65, 201)?;
    show_run(rt, rec, &keys, &weights, &[], 65, 201)?;
    show_run(rt, rec, &keys, &weights, &stock[..4], 65, 201)?;
    show_run(rt, rec, &keys, &weights, &stock[..190], 65, 201)?;
    show_run(rt, rec, &keys, &weights, &stock[..191], 65, 201)?;
    show_run(rt, rec, &keys, &weights, &stock, 65, 201)?;
    show_run(rt, rec, &keys, &weights, &stock[..6], 65, 201)?;
    show_run(rt, rec, &keys, &weights, &stock[..6], 2, 201)?;
    show_run(rt, rec, &keys, &weights, &stock[..6], 1, 201)?;
    show_run(rt, rec, &keys, &weights, &stock[..6], 0, 201)?;
    show_run(rt, rec, &keys, &weights, &stock[..3], 3, 201)?;
    show_run(
        rt,
        record(1, 3, 0, 0, 0),
        &keys,
        &weights,
        &stock[..189],
        64,
        201,
    )?;
    show_lent(rt, rec, &keys, &weights, &stock[..3], 2, 201, 1, 0)?;
    show_lent(rt, rec, &keys, &weights, &stock[..3], 2, 100, 1, 100)?;
    show_lent(rt, rec, &keys, &weights, &stock[..3], 2, 200, 2, 100)?;
    show_lent(rt, rec, &keys, &weights, &stock[..3], 2, 0, 2, 99)
}

fn main(rt: HostRuntime) -> io::Result<()> {
    starts(&rt)?;
    moves(&rt)?;
    most_fixed(&rt)?;
    refused(&rt)
}
