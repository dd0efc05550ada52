// The members against the shades.
ghost use Rattle.std.specs.Prelude.{◌≡◌, ◌*◌, ◌<◌, get_or};
ghost use Rattle.shades.specs.{colour_at, to_shade};
ghost use Rattle.method.specs.{state_of, colours_of, final_of};
ghost use Rattle.rounds_step.specs.{Walkable};

// What entry `i` costs with its member's shade.
fn entry_cost(
    keys: &[u32],
    weights: &[u32],
    used: usize,
    shades: &[u32],
    count: usize,
    members: &[u32],
    i: usize,
) -> u64
    requires { Walkable used keys.now weights.now count (state_of shades.now members.now)
        × (i < used) }
    ensures { result ≡ get_or weights.now i 0
        * to_shade shades.now (colour_at keys.now i)
        (get_or members.now i 0) }
{
    let p = members[i] as usize;
    shades::cost(
        weights[i],
        shades::distance_to(shades, p, colour::colour_of(keys[i])),
    )
}

// The sum over the entries of weight times distance to the member's shade. Requires a table, shades
// on the grid, and a shade's number for each entry.
pub fn final_total(
    keys: &[u32],
    weights: &[u32],
    used: usize,
    shades: &[u32],
    count: usize,
    members: &[u32],
) -> u64
    requires { Walkable used keys.now weights.now count
        (state_of shades.now members.now) }
    ensures { result ≡ final_of (colours_of used keys.now weights.now)
        (state_of shades.now members.now) }
{
    let mut total: u64 = 0;
    for i in 0..used {
        total += entry_cost(keys, weights, used, shades, count, members, i);
    }
    total
}
