// White bytes and comments in a row.
ghost use Rattle.std.specs.Prelude.{◌≡◌};
ghost use Rattle.p6_gap.specs.Gaps.{gap_end};

use super::comment::comment_end;
use super::white::is_white;

// Where the white bytes and comments from `at` on end; `at` itself where there is none.
pub fn gap_end(input: &[u8], at: usize) -> usize
    ensures { result ≡ gap_end input.now at }
{
    let mut i = at;
    while i < input.len() {
        let byte = input[i];
        if is_white(byte) {
            i += 1;
            continue;
        }
        if byte != b'#' {
            return i;
        }
        i = comment_end(input, i);
    }
    i
}
