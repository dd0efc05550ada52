// A shade in a list of coordinates.
ghost use Rattle.std.specs.Prelude.{◌≡◌, ◌+◌, ◌*◌, ◌<◌, length};
ghost use Rattle.shades.specs.Places.{shade_at, put_shade};

use colour::Point;

// Shade `q` of the coordinates `shades`, which are required to hold it.
pub fn shade_at(shades: &[u32], q: usize) -> Point
    requires { 3 * q + 2 < length shades.now }
    ensures { result ≡ shade_at shades.now q }
{
    let i = 3 * q;
    Point {
        r: shades[i],
        g: shades[i + 1],
        b: shades[i + 2],
    }
}

// Stores `p` as shade `q` of the coordinates `shades`, which are required to have its places.
pub fn put_shade(shades: &mut [u32], q: usize, p: Point)
    requires { 3 * q + 2 < length shades.old }
    ensures { shades.new ≡ put_shade shades.old q p }
{
    let i = 3 * q;
    shades[i] = p.r;
    shades[i + 1] = p.g;
    shades[i + 2] = p.b;
}
