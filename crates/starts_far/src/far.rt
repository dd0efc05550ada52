// The farthest entry: kept distances are lowered, and the first place of the greatest is found.
ghost use Rattle.std.specs.Prelude.{◌≡◌, ℕ, ◌<◌, ◌≤◌, length, get_or};
ghost use Rattle.number.specs.{fill, peak, most};
ghost use Rattle.colour.specs.{Within, most_coordinate};
ghost use Rattle.starts_far.specs.Lowering.{lower_kept, Keyed};

use colour::Point;

// Lowers the kept distances to those to `p`; the greatest that is left. Requires entries, a point
// on the grid, and a kept distance for each entry.
pub fn lower_kept(keys: &[u32], used: usize, p: Point, d: &mut [u32]) -> u32
    requires { Keyed used keys.now × Within most_coordinate p × (used ≤ length d.old) }
    ensures distances { d.new
        ≡ fill used (lower_kept keys.now p d.old) d.old }
    ensures greatest { result ≡ peak used (lower_kept keys.now p d.old) }
{
    let mut far: u32 = 0;
    for i in 0..used {
        let x = colour::distance(colour::colour_of(keys[i]), p);
        let y = d[i].min(x);
        d[i] = y;
        far = far.max(y);
    }
    far
}

// What none of the kept distances is above.
fn block_peak(d: &[u32]) -> u32
    ensures { (j : ℕ) → j < length d.now → get_or d.now j 0 ≤ result }
{
    let mut far: u32 = 0;
    for kept in d {
        far = far.max(*kept);
    }
    far
}

// A place before which no kept distance is as great as `far`, found block by block.
fn skip_blocks(d: &[u32], used: usize, far: u32) -> usize
    requires { used ≤ length d.now }
    ensures { (result ≤ used) × ((j : ℕ) → j < result → get_or d.now j 0 < far) }
{
    for start in (0..used).step_by(512) {
        let end = used.min(start + 512);
        if far <= block_peak(&d[start..end]) {
            return start;
        }
    }
    used
}

// The first place of the greatest kept distance, which is required to be `far`.
pub fn first_of(d: &[u32], used: usize, far: u32) -> usize
    requires { (0 < used) × (used ≤ length d.now)
        × (far ≡ peak used (λ i. get_or d.now i 0)) }
    ensures { result ≡ most used (λ i. get_or d.now i 0) }
{
    for i in skip_blocks(d, used, far)..used {
        if d[i] == far {
            return i;
        }
    }
    0
}
