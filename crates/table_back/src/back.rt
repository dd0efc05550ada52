// Keys that rise, passed from the back: one by one, and sixteen at once where all are passed.
ghost use Rattle.std.specs.Prelude.{◌≡◌, ◌≤◌, length, take};
ghost use Rattle.table_back.specs.Passing.{below, all_below, sixteen_passed};
ghost use Rattle.table_back.specs.Passing.{pass_sixteens, InOrder};

// Whether the first `i` keys, which rise, are all below `key`.
pub fn clear(keys: &[u32], i: usize, key: u32) -> bool
    requires { i ≤ length keys.now }
    ensures { result ≡ all_below keys.now i key }
{
    i == 0 || keys[i - 1] < key
}

// Whether the last sixteen of the first `i` keys, which rise, are there and none is below `key`.
pub fn far(keys: &[u32], i: usize, key: u32) -> bool
    requires { i ≤ length keys.now }
    ensures { result ≡ sixteen_passed keys.now i key }
{
    16 <= i && key <= keys[i - 16]
}

// Passes keys that are not below `key` from the back, by sixteens as long as they go: how many of
// the first `i` are left.
fn pass_sixteens(keys: &[u32], i: usize, key: u32) -> usize
    requires { i ≤ length keys.now }
    ensures { result ≡ pass_sixteens keys.now i key }
{
    let mut left = i;
    while far(keys, left, key) {
        left -= 16;
    }
    left
}

// How many of the first `i` keys are below `key`: its place among them, looked for from the back.
// Requires that they rise.
pub fn place_back(keys: &[u32], i: usize, key: u32) -> usize
    requires i_in_bounds { i ≤ length keys.now }
    requires in_order { InOrder (λ k. k) i keys.now }
    ensures { result ≡ below key (take i keys.now) }
{
    if clear(keys, i, key) {
        return i;
    }
    let mut left = pass_sixteens(keys, i, key);
    while !clear(keys, left, key) {
        left -= 1;
    }
    left
}
