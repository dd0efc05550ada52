// The calls of the crates lloyd and lloyd_fixed.
use lloyd::{Ran, Rounded};
use refusal::Refusal;
use table::Record;

// A plain round.
pub fn plain_round(
    rec: Record,
    keys: &[u32],
    weights: &[u32],
    coordinates: &mut [u32],
    members: &mut [u32],
) -> Result<Rounded, Refusal> {
    lloyd::plain_round(rec, keys, weights, coordinates, members)
}

// A shortened round.
pub fn short_round(
    rec: Record,
    keys: &[u32],
    weights: &[u32],
    coordinates: &mut [u32],
    members: &mut [u32],
) -> Result<Rounded, Refusal> {
    lloyd::short_round(rec, keys, weights, coordinates, members)
}

// A run.
pub fn run(
    rec: Record,
    keys: &[u32],
    weights: &[u32],
    count: usize,
    limit: usize,
    members: &mut [u32],
    totals: &mut [u64],
) -> Result<Ran, Refusal> {
    lloyd::run(rec, keys, weights, count, limit, members, totals)
}

// A Jancey run.
pub fn run_jancey(
    rec: Record,
    keys: &[u32],
    weights: &[u32],
    count: usize,
    limit: usize,
    members: &mut [u32],
    totals: &mut [u64],
) -> Result<Ran, Refusal> {
    lloyd::run_jancey(rec, keys, weights, count, limit, members, totals)
}

// A run with fixed shades.
pub fn run_fixed(
    rec: Record,
    keys: &[u32],
    weights: &[u32],
    fixed: &[u8],
    count: usize,
    limit: usize,
    members: &mut [u32],
    totals: &mut [u64],
) -> Result<Ran, Refusal> {
    lloyd_fixed::run_fixed(rec, keys, weights, fixed, count, limit, members, totals)
}
