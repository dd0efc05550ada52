// A field of a header: white bytes and comments, and a number after them.
ghost use Rattle.std.specs.Prelude.{◌≡◌};
ghost use Rattle.p6_header.specs.Fields.{field_at};

use grammar::Numeral;
use p6_gap::gap_end;

// One or more white bytes and comments from `at` on, and the number after them.
#[tactic(auto, unfolding(crate::specs::Fields::field_at))]
pub fn field(input: &[u8], at: usize) -> Result<Numeral, usize>
    ensures { result ≡ field_at input.now at }
{
    let start = gap_end(input, at);
    if start == at {
        return Err(at);
    }
    grammar::number(input, start)
}
