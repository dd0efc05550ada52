// How many used colours are unlike every fixed shade. A fixed shade is like one of them at most, so
// each that is like one, and has no equal before it, takes one away.
ghost use Rattle.std.specs.Prelude.{◌≡◌, false, ◌<◌};
ghost use Rattle.lloyd_stock.specs.Keys.{UsedKeys, fixed_key, has_equal, takes_one};
ghost use Rattle.lloyd_stock.specs.Stock.{fixed_in, colours_left, bad_fixed};

// The key of fixed shade `q`, which the list is required to have.
fn fixed_key(fixed: &[u8], q: usize) -> u32
    requires { q < fixed_in fixed.now }
    ensures { result ≡ fixed_key fixed.now q }
{
    colour::key_at(fixed, 3 * q)
}

// Whether a fixed shade equal to shade `q` stands before it. Requires the shade.
fn has_equal(fixed: &[u8], q: usize) -> bool
    requires { q < fixed_in fixed.now }
    ensures { result ≡ has_equal fixed.now q }
{
    let key = fixed_key(fixed, q);
    (0..q).any(|i| fixed_key(fixed, i) == key)
}

// Whether fixed shade `q` takes a used colour: its key stands among the used ones, and it has no
// equal before it. Requires the used keys of a table, and the shade.
fn takes_one(keys: &[u32], used: usize, fixed: &[u8], q: usize) -> bool
    requires { UsedKeys used keys.now × (q < fixed_in fixed.now) }
    ensures { result ≡ takes_one used keys.now fixed.now q }
{
    let key = fixed_key(fixed, q);
    let at = table_pixel::pixel::place(keys, used, key);
    table_pixel::pixel::stands(keys, used, at, key) && !has_equal(fixed, q)
}

// How many used colours are unlike every fixed shade. Requires the used keys of a table, and a
// fixed list.
pub fn colours_left(keys: &[u32], used: usize, fixed: &[u8]) -> usize
    requires { UsedKeys used keys.now × (bad_fixed fixed.now ≡ false) }
    ensures { result ≡ colours_left used keys.now fixed.now }
{
    let n = fixed.len() / 3;
    let mut taken = 0;
    for q in 0..n {
        taken += usize::from(takes_one(keys, used, fixed, q));
    }
    used - taken
}
