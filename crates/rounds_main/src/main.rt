// Rounds and runs that are run: each call's answer, and the slices that it leaves, held to the file
// stdout beside src/. A line of a run is refusal, rounds, settled, distances, final total, two
// shades, three members, three totals. A line of a single round is refusal, round total, shades
// moved, distances, two shades, three members.
#![tactic(auto)]

ghost use Rattle.std.specs.Prelude.{◌≤◌, length};

use arrays::{round_numbers, run_numbers, run_shades};
use lloyd::{Ran, Rounded};
use printing::{field, row};
use refusal::{Refusal, number_in};
use std::io;
use table::Record;

// The record of red colours: so many, of so many pixels, and so many levels of red.
fn reds(used: usize, pixels: u64, red: u64) -> Record {
    Record {
        used,
        pixels,
        red,
        green: 0,
        blue: 0,
    }
}

// The answer of a run: of its shades the first two.
fn show_ran(rt: &impl Print, answer: Result<Ran, Refusal>) -> io::Result<()> {
    let shades = run_shades(answer);
    field(rt, number_in(answer.err()))?;
    row(rt, &run_numbers(answer))?;
    row(rt, &shades[..6])
}

// The line of a run on two colours, with these totals lent, of which three are shown. Requires
// three.
fn show_lent(
    rt: &impl Print,
    rec: Record,
    keys: &[u32; 2],
    weights: &[u32; 2],
    count: usize,
    limit: usize,
    totals: &mut [u64],
) -> io::Result<()>
    requires { 3 ≤ length totals.old }
{
    let mut members = [8u32; 3];
    let a = lloyd::run(rec, keys, weights, count, limit, &mut members, totals);
    show_ran(rt, a)?;
    row(rt, &members)?;
    row(rt, &totals[..3])?;
    println!(rt)
}

// The same, with 200 totals lent.
fn show_run(
    rt: &impl Print,
    rec: Record,
    keys: &[u32; 2],
    weights: &[u32; 2],
    count: usize,
    limit: usize,
) -> io::Result<()> {
    let mut totals = [5u64; 200];
    show_lent(rt, rec, keys, weights, count, limit, &mut totals)
}

// The line of a single round: its answer, the shades that it leaves, and the members.
fn show_round(
    rt: &impl Print,
    answer: Result<Rounded, Refusal>,
    shades: &[u32; 6],
    members: &[u32; 3],
) -> io::Result<()> {
    field(rt, number_in(answer.err()))?;
    row(rt, &round_numbers(answer))?;
    row(rt, shades)?;
    row(rt, members)?;
    println!(rt)
}

// Shade counts on an empty table: 1, 64, 65, 0.
fn counts(rt: &impl Print) -> io::Result<()> {
    let keys = [0u32; 2];
    let weights = [0u32; 2];
    let empty = reds(0, 0, 0);
    show_run(rt, empty, &keys, &weights, 1, 0)?;
    show_run(rt, empty, &keys, &weights, 64, 0)?;
    show_run(rt, empty, &keys, &weights, 65, 0)?;
    show_run(rt, empty, &keys, &weights, 0, 0)
}

// Sheet A's table: one shade (sheet B), two shades with limits 1 (sheet E), 200 and 201.
fn limits(rt: &impl Print) -> io::Result<()> {
    let keys = [0u32, 655360];
    let weights = [3u32, 1];
    let rec = reds(2, 4, 10);
    show_run(rt, rec, &keys, &weights, 1, 0)?;
    show_run(rt, rec, &keys, &weights, 2, 1)?;
    show_run(rt, rec, &keys, &weights, 2, 200)?;
    show_run(rt, rec, &keys, &weights, 2, 201)
}

// Two shades of sheet A's table: 20 totals lent for the limits 0 and 20, then 99 and 100 for the
// limit 0.
fn rooms(rt: &impl Print) -> io::Result<()> {
    let keys = [0u32, 655360];
    let weights = [3u32, 1];
    let rec = reds(2, 4, 10);
    let mut few = [5u64; 20];
    show_lent(rt, rec, &keys, &weights, 2, 0, &mut few)?;
    show_lent(rt, rec, &keys, &weights, 2, 20, &mut few)?;
    let mut short = [5u64; 99];
    show_lent(rt, rec, &keys, &weights, 2, 0, &mut short)?;
    let mut enough = [5u64; 100];
    show_lent(rt, rec, &keys, &weights, 2, 0, &mut enough)
}

// Means that go up: a half (sheet H), and two thirds, where a mean rounded down costs more.
fn means(rt: &impl Print) -> io::Result<()> {
    let keys = [655360u32, 720896];
    let weights = [17u32, 15];
    let rec = reds(2, 32, 335);
    show_run(rt, rec, &keys, &weights, 1, 0)?;
    let few = [1u32, 2];
    let three = reds(2, 3, 32);
    show_run(rt, three, &keys, &few, 1, 0)
}

// A shade just four times as far from the former shade as the colour is (sheet G).
fn tie(rt: &impl Print) -> io::Result<()> {
    let keys = [327680u32];
    let weights = [1u32];
    let rec = reds(1, 1, 5);
    let mut shades = [0u32, 0, 0, 160, 0, 0];
    let mut members = [1u32, 8, 8];
    let a = lloyd::short_round(rec, &keys, &weights, &mut shades, &mut members);
    show_round(rt, a, &shades, &members)
}

// One shade twice, on sheet A's table (sheet I): a plain round, then a shortened one from what it
// leaves.
fn twins(rt: &impl Print) -> io::Result<()> {
    let keys = [0u32, 655360];
    let weights = [3u32, 1];
    let rec = reds(2, 4, 10);
    let mut shades = [0u32; 6];
    let mut members = [8u32; 3];
    let a = lloyd::plain_round(rec, &keys, &weights, &mut shades, &mut members);
    show_round(rt, a, &shades, &members)?;
    let b = lloyd::short_round(rec, &keys, &weights, &mut shades, &mut members);
    show_round(rt, b, &shades, &members)
}

// A shade with no group, far from (0,0,0), beside one whose group has weights 3 and 1.
fn alone(rt: &impl Print) -> io::Result<()> {
    let keys = [0u32, 655360];
    let weights = [3u32, 1];
    let rec = reds(2, 4, 10);
    let mut shades = [80u32, 0, 0, 4080, 4080, 4080];
    let mut members = [8u32; 3];
    let a = lloyd::plain_round(rec, &keys, &weights, &mut shades, &mut members);
    show_round(rt, a, &shades, &members)
}

// A coordinate above 4080, and a former shade that is none.
fn refused(rt: &impl Print) -> io::Result<()> {
    let keys = [0u32, 655360];
    let weights = [3u32, 1];
    let rec = reds(2, 4, 10);
    let mut off = [0u32, 0, 0, 160, 0, 4081];
    let mut members = [0u32, 2, 8];
    let a = lloyd::plain_round(rec, &keys, &weights, &mut off, &mut members);
    show_round(rt, a, &off, &members)?;
    let mut shades = [0u32, 0, 0, 160, 0, 4080];
    let b = lloyd::short_round(rec, &keys, &weights, &mut shades, &mut members);
    show_round(rt, b, &shades, &members)
}

fn main(rt: HostRuntime) -> io::Result<()> {
    counts(&rt)?;
    limits(&rt)?;
    rooms(&rt)?;
    means(&rt)?;
    tie(&rt)?;
    twins(&rt)?;
    alone(&rt)?;
    refused(&rt)
}
