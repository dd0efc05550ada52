// All lines of a listing, one behind the other.
ghost use Rattle.std.specs.Prelude.{◌≡◌, ◌+◌, ◌*◌, ◌/◌, ◌≤◌, length, get_or};
ghost use Rattle.texts.specs.{PutMeets, lines_of};
ghost use Rattle.shades.specs.{most_shades};
ghost use Rattle.listing_lines.specs.Texts.{
  most_line,
  most_text,
  shade_rows,
  lines_for,
};

use super::Summary;
use super::count::count_shades;
use super::line::{put_head, put_shade};

// Puts the lines of all shades, with the count of each. Requires a count for each, and room.
fn put_rows(out: &mut [u8], at: usize, palette: &[u8], counts: &[u64]) -> usize
    requires each { length counts.now ≡ length palette.now / 3 }
    requires room { at + most_line * length counts.now ≤ length out.old }
    ensures { PutMeets at
        (lines_of (shade_rows (length counts.now) palette.now
        (λ q. get_or counts.now q 0))) out.old result out.new }
{
    let mut a = at;
    for (q, pixels) in counts.iter().enumerate() {
        a = put_shade(out, a, palette, q, *pixels);
    }
    a
}

// Puts all lines: line 1, a line for each shade of the palette with the pixels that the index
// picture gives it, and the last line. Requires at most 64 shades, and room.
pub fn put_lines(out: &mut [u8], summary: Summary, palette: &[u8], index: &[u8]) -> usize
    requires { (length palette.now / 3 ≤ most_shades) × (most_text ≤ length out.old) }
    ensures { PutMeets 0
        (lines_of (lines_for summary palette.now index.now))
        out.old result out.new }
{
    let mut room = [0u64; 64];
    let counts = &mut room[..palette.len() / 3];
    count_shades(index, counts);
    let a = put_head(out, summary);
    let b = put_rows(out, a, palette, counts);
    texts::put_last(out, b, summary.error)
}
