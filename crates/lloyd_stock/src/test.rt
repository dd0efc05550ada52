// The test of a fixed list.
ghost use Rattle.std.specs.Prelude.{◌≡◌};
ghost use Rattle.shades.specs.{bad_triples};
ghost use Rattle.lloyd_stock.specs.Stock.{most_fixed};

use super::MOST_FIXED;

// Whether this many bytes are no fixed list: the test of 10 BAD PALETTE.
pub fn bad_fixed(fixed_len: usize) -> bool
    ensures { result ≡ bad_triples most_fixed fixed_len }
{
    shades::bad_triples(fixed_len, MOST_FIXED)
}
