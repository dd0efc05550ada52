// The starting shades, one after the other.
ghost use Rattle.std.specs.Prelude.{◌≡◌, ℕ, ◌-◌, ◌*◌, ◌<◌, ◌≤◌, length, get_or};
ghost use Rattle.number.specs.{fill};
ghost use Rattle.shades.specs.{most_shades, colour_at, OnGrid};
ghost use Rattle.method.specs.{listed, starts_from, over};
ghost use Rattle.starts_far.specs.{Keyed};
ghost use Rattle.starts.specs.Keeping.{shade_from, kept};

use colour::Point;
use starts_far::{first_of, lower_kept};

// Start number `q`, after start number q - 1, which is required to be `p`, with the distances kept
// up to it in `d`. The given starts lie in `base`, and there is required to be one.
fn turn(keys: &[u32], used: usize, base: &[u32], q: usize, p: Point, d: &mut [u32]) -> Point
    requires { Keyed used keys.now × OnGrid base.now × (3 ≤ length base.now)
        × (used ≤ length d.old)
        × (p ≡ shade_from (listed base.now) used (colour_at keys.now) (q - 1))
        × ((i : ℕ) → i < used
        → get_or d.old i 0 ≡ kept keys.now used (listed base.now) (q - 1) i) }
    ensures shade { result
        ≡ shade_from (listed base.now) used (colour_at keys.now) q }
    ensures distances { d.new
        ≡ fill used (kept keys.now used (listed base.now) q)
        d.old }
{
    if q == 0 {
        return shades::shade_at(base, q);
    }
    let far = lower_kept(keys, used, p, d);
    if q < base.len() / 3 {
        return shades::shade_at(base, q);
    }
    let at = first_of(d, used, far);
    colour::colour_of(keys[at])
}

// Stores `count` starting shades, those given in `base` first, in the front of `shades`, and leaves
// every member 0. Requires entries, a given shade, all of them on the grid, and room for shades and
// members.
pub fn fill_starts(
    keys: &[u32],
    used: usize,
    base: &[u32],
    shades: &mut [u32],
    count: usize,
    members: &mut [u32],
)
    requires { Keyed used keys.now × OnGrid base.now × (3 ≤ length base.now)
        × (count ≤ most_shades) × (3 * count ≤ length shades.old)
        × (used ≤ length members.old) }
    ensures shades { shades.new
        ≡ over (starts_from (listed base.now) used (colour_at keys.now) count)
        shades.old }
    ensures members { members.new ≡ fill used (λ i. 0) members.old }
{
    shades::set_all(members, used, u32::MAX);
    let mut p = shades::shade_at(base, 0);
    for q in 0..count {
        p = turn(keys, used, base, q, p, members);
        shades::put_shade(shades, q, p);
    }
    shades::set_all(members, used, 0);
}
