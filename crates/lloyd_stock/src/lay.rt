// Where fixed shades stand.
ghost use Rattle.std.specs.Prelude.{◌≡◌, ◌≤◌, get_or, length};
ghost use Rattle.number.specs.{fill};
ghost use Rattle.colour.specs.{sixteenth};

// Lays the levels, in sixteenths, into the front of `base`, which is required to have a place for
// each; the other places stay.
pub fn lay_stock(fixed: &[u8], base: &mut [u32])
    requires { length fixed.now ≤ length base.old }
    ensures { base.new
        ≡ fill (length fixed.now) (λ i. sixteenth (get_or fixed.now i 0))
        base.old }
{
    for (i, level) in fixed.iter().enumerate() {
        base[i] = 16 * u32::from(*level);
    }
}
