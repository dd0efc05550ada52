// The answers of rounds and runs in arrays.
ghost use Rattle.std.specs.Prelude.{◌≡◌};
ghost use Rattle.arrays.specs.Arrays.{round_numbers, run_numbers, run_shades};

use lloyd::{Ran, Rounded};
use refusal::Refusal;

// The answer of a round: total, shades moved, distances; zeros for a refusal.
pub fn round_numbers(answer: Result<Rounded, Refusal>) -> [u64; 3]
    ensures { result ≡ round_numbers answer }
{
    match answer {
        Ok(a) => [a.total, u64::from(a.moved), a.distances],
        Err(_) => [0u64; 3],
    }
}

// The answer of a run, its shades apart: rounds made, settled as 1 or 0, distances, final total;
// zeros for a refusal.
pub fn run_numbers(answer: Result<Ran, Refusal>) -> [u64; 4]
    ensures { result ≡ run_numbers answer }
{
    match answer {
        Ok(a) => [a.rounds as u64, u64::from(a.settled), a.distances, a.total],
        Err(_) => [0u64; 4],
    }
}

// The shades of a run, zeros for a refusal.
pub fn run_shades(answer: Result<Ran, Refusal>) -> [u32; 192]
    ensures { result ≡ run_shades answer }
{
    match answer {
        Ok(a) => a.shades,
        Err(_) => [0u32; 192],
    }
}
