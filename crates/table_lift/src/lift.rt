// Values moved up in a slice: one, four and sixteen at once, and keys with their weights.
ghost use Rattle.std.specs.Prelude.{◌≡◌, ◌≤◌, ◌<◌, length};
ghost use Rattle.table_lift.specs.Lifting.{lift};

// The four values before place `i` stored before place `o`, where `o` is not below `i`.
fn lift_four(s: &mut [u32], i: usize, o: usize)
    requires { (4 ≤ i) × (i ≤ o) × (o ≤ length s.old) }
    ensures { s.new ≡ lift 4 i o s.old }
{
    let a = s[i - 1];
    let b = s[i - 2];
    let c = s[i - 3];
    let d = s[i - 4];
    s[o - 1] = a;
    s[o - 2] = b;
    s[o - 3] = c;
    s[o - 4] = d;
}

// The same with sixteen values.
fn lift_sixteen(s: &mut [u32], i: usize, o: usize)
    requires { (16 ≤ i) × (i ≤ o) × (o ≤ length s.old) }
    ensures { s.new ≡ lift 16 i o s.old }
{
    lift_four(s, i, o);
    lift_four(s, i - 4, o - 4);
    lift_four(s, i - 8, o - 8);
    lift_four(s, i - 12, o - 12);
}

// Moves the last sixteen of the first `i` entries up to end at `o`.
pub fn move_sixteen(keys: &mut [u32], weights: &mut [u32], i: usize, o: usize)
    requires { (16 ≤ i) × (i ≤ o) × (o ≤ length keys.old) × (o ≤ length weights.old) }
    ensures keys_after { keys.new ≡ lift 16 i o keys.old }
    ensures weights_after { weights.new ≡ lift 16 i o weights.old }
{
    lift_sixteen(keys, i, o);
    lift_sixteen(weights, i, o);
}

// Moves the last of the first `i` entries up to end at `o`.
pub fn move_one(keys: &mut [u32], weights: &mut [u32], i: usize, o: usize)
    requires { (0 < i) × (i ≤ o) × (o ≤ length keys.old) × (o ≤ length weights.old) }
    ensures keys_after { keys.new ≡ lift 1 i o keys.old }
    ensures weights_after { weights.new ≡ lift 1 i o weights.old }
{
    keys[o - 1] = keys[i - 1];
    weights[o - 1] = weights[i - 1];
}
