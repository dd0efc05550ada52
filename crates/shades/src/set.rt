// One value in every place of a list's front.
ghost use Rattle.std.specs.Prelude.{◌≡◌, ◌≤◌, length};
ghost use Rattle.number.specs.{fill};

// Sets the first `count` places, which are required to be there, to `value`; the others stay.
pub fn set_all(d: &mut [u32], count: usize, value: u32)
    requires { count ≤ length d.old }
    ensures { d.new ≡ fill count (λ i. value) d.old }
{
    d[..count].fill(value);
}
