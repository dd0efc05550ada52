// Two sums of levels in one number of 64 bits: put together, and taken apart.
ghost use Rattle.std.specs.Prelude.{◌≡◌, ◌+◌, ◌*◌, ◌/◌, ◌%◌, ◌≤◌};
ghost use Rattle.colour.specs.{most_pixels};
ghost use Rattle.level_sums.specs.Levels.{red_green, blue_pixels};

// Two sums of at most 2^24 levels, in one number.
fn pair(x: u32, y: u32) -> u64
    ensures { result ≡ 4294967296 * x + y }
{
    4294967296 * u64::from(x) + u64::from(y)
}

// The weight times red and green level, in one: products of 32 bits, put side by side. Requires a
// table's weight.
pub fn red_green(weight: u32, key: u32) -> u64
    requires { weight ≤ most_pixels }
    ensures { result ≡ weight * red_green key }
{
    pair(weight * colour::red_of(key), weight * colour::green_of(key))
}

// The weight times blue level, and the weight, in one. Requires a table's weight.
pub fn blue_pixels(weight: u32, key: u32) -> u64
    requires { weight ≤ most_pixels }
    ensures { result ≡ weight * blue_pixels key }
{
    pair(weight * colour::blue_of(key), weight)
}

// The upper sum.
pub fn high(x: u64) -> u64
    ensures { result ≡ x / 4294967296 }
{
    x / 4294967296
}

// The lower sum.
pub fn low(x: u64) -> u64
    ensures { result ≡ x % 4294967296 }
{
    x % 4294967296
}
