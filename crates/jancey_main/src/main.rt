// Lloyd's run and Jancey's on small tables, the one below the other: answers and slices, held to
// the file stdout beside src/. A line is refusal, rounds, settled, distances, final total; three
// shades; three members and twenty totals, which are sevens before the call.
#![tactic(auto)]

use arrays::{run_numbers, run_shades};
use lloyd::Ran;
use printing::{field, row};
use refusal::{Refusal, number_in};
use std::io;
use table::Record;

// The line of a run.
fn show(
    rt: &impl Print,
    answer: Result<Ran, Refusal>,
    members: &[u32; 5],
    totals: &[u64; 20],
) -> io::Result<()> {
    let shades = run_shades(answer);
    field(rt, number_in(answer.err()))?;
    row(rt, &run_numbers(answer))?;
    row(rt, &shades[..9])?;
    row(rt, &members[..3])?;
    row(rt, totals)?;
    println!(rt)
}

// Both runs on one table.
fn both(
    rt: &impl Print,
    rec: Record,
    keys: &[u32; 5],
    weights: &[u32; 5],
    count: usize,
    limit: usize,
) -> io::Result<()> {
    let mut members = [7u32; 5];
    let mut totals = [7u64; 20];
    let a = lloyd::run(rec, keys, weights, count, limit, &mut members, &mut totals);
    show(rt, a, &members, &totals)?;
    let mut others = [7u32; 5];
    let mut falls = [7u64; 20];
    let b = lloyd::run_jancey(rec, keys, weights, count, limit, &mut others, &mut falls);
    show(rt, b, &others, &falls)
}

// The record of a table.
fn record(used: usize, pixels: u64, red: u64, green: u64, blue: u64) -> Record {
    Record {
        used,
        pixels,
        red,
        green,
        blue,
    }
}

// Two shades of sheet F, two pixels.
fn sheet_f(rt: &impl Print, limit: usize) -> io::Result<()> {
    both(
        rt,
        record(2, 2, 10, 0, 0),
        &[0, 655360, 0, 0, 0],
        &[1, 1, 0, 0, 0],
        2,
        limit,
    )
}

// Sheet F: 18 rounds by Jancey's rule where Lloyd's takes 2.
// Nine pixels of levels R 13 to 18: Jancey's takes fewer rounds than Lloyd's, to the same shades.
// Twelve of R 252, 253, 254: it takes more, and ends with a smaller total.
// Fourteen of (250,254,251), (250,255,253), (251,253,254): it takes more, and ends with a greater.
fn rounds(rt: &impl Print) -> io::Result<()> {
    sheet_f(rt, 20)?;
    let fewer = [851968u32, 917504, 983040, 1114112, 1179648];
    both(rt, record(5, 9, 140, 0, 0), &fewer, &[1, 2, 2, 3, 1], 2, 20)?;
    let smaller = [16515072u32, 16580608, 16646144, 0, 0];
    both(
        rt,
        record(3, 12, 3031, 0, 0),
        &smaller,
        &[8, 1, 3, 0, 0],
        2,
        20,
    )?;
    let greater = [16449275u32, 16449533, 16514558, 0, 0];
    both(
        rt,
        record(3, 14, 3505, 3552, 3531),
        &greater,
        &[8, 1, 5, 0, 0],
        2,
        20,
    )
}

// Steps that are held: to 0 (sheet A), and to 4080 (R 251 and 255). A shade whose group is empty,
// of R 250, 251, 255. Sheet F stopped at its limit, in one round and in three.
fn edges(rt: &impl Print) -> io::Result<()> {
    both(
        rt,
        record(2, 4, 10, 0, 0),
        &[0, 655360, 0, 0, 0],
        &[3, 1, 0, 0, 0],
        2,
        20,
    )?;
    let high = [16449536u32, 16711680, 0, 0, 0];
    both(rt, record(2, 2, 506, 0, 0), &high, &[1, 1, 0, 0, 0], 2, 20)?;
    let lonely = [16384000u32, 16449536, 16711680, 0, 0];
    both(
        rt,
        record(3, 14, 3531, 0, 0),
        &lonely,
        &[7, 1, 6, 0, 0],
        3,
        20,
    )?;
    sheet_f(rt, 1)?;
    sheet_f(rt, 3)
}

// What is refused, each fault with those that stand behind it: a record that is not the table's, 65
// shades, more shades than colours, a limit above 200, and 20 totals for a limit of 0.
fn refused(rt: &impl Print) -> io::Result<()> {
    let keys = [0u32, 655360, 0, 0, 0];
    let weights = [1u32, 1, 0, 0, 0];
    both(rt, record(2, 2, 11, 0, 0), &keys, &weights, 65, 201)?;
    both(rt, record(2, 2, 10, 0, 0), &keys, &weights, 65, 201)?;
    both(rt, record(2, 2, 10, 0, 0), &keys, &weights, 3, 201)?;
    both(rt, record(2, 2, 10, 0, 0), &keys, &weights, 2, 201)?;
    both(rt, record(2, 2, 10, 0, 0), &keys, &weights, 2, 0)
}

fn main(rt: HostRuntime) -> io::Result<()> {
    rounds(&rt)?;
    edges(&rt)?;
    refused(&rt)
}
