// One line: of numbers, of a refusal, the first, and that of a shade.
ghost use Rattle.std.specs.Prelude.{◌+◌, ◌*◌, ◌<◌, ◌≤◌, length};
ghost use Rattle.texts.specs.{PutMeets, line_of};
ghost use Rattle.listing_lines.specs.Texts.{
  most_field,
  most_line,
  refused_text,
  head_fields,
  shade_fields,
};

use super::Summary;

// Puts a line of numbers. Requires one number at least, and room for 21 bytes for each.
fn put_line(out: &mut [u8], at: usize, fields: &[u64]) -> usize
    requires { (1 ≤ length fields.now)
        × (at + most_field * length fields.now ≤ length out.old) }
    ensures { PutMeets at (line_of fields.now) out.old result
        out.new }
{
    let last = fields.len() - 1;
    let mut a = at;
    for field in &fields[..last] {
        a = texts::put_field(out, a, *field);
    }
    texts::put_last(out, a, fields[last])
}

// Puts the one line of a refusal, by its number, which is all that the line tells. Requires room
// for it.
pub fn put_refusal(out: &mut [u8], number: u8) -> usize
    requires { most_line ≤ length out.old }
    ensures { PutMeets 0 (refused_text number) out.old result out.new }
{
    let a = texts::put_word(out, 0, b"refused ");
    texts::put_last(out, a, u64::from(number))
}

// Puts line 1: table colours, pixels, rounds, settled, final total, distances. Requires room.
pub fn put_head(out: &mut [u8], summary: Summary) -> usize
    requires { most_line ≤ length out.old }
    ensures { PutMeets 0 (line_of (head_fields summary)) out.old result
        out.new }
{
    let fields = [
        summary.used,
        summary.pixels,
        summary.rounds,
        summary.settled,
        summary.total,
        summary.distances,
    ];
    put_line(out, 0, &fields)
}

// Puts a shade's line: number, R, G, B, pixels mapped to it. Requires the shade's entry, and room.
pub fn put_shade(out: &mut [u8], at: usize, palette: &[u8], q: usize, pixels: u64) -> usize
    requires { (3 * q + 2 < length palette.now) × (at + most_line ≤ length out.old) }
    ensures { PutMeets at
        (line_of (shade_fields palette.now q pixels))
        out.old result out.new }
{
    let i = 3 * q;
    let fields = [
        q as u64,
        u64::from(palette[i]),
        u64::from(palette[i + 1]),
        u64::from(palette[i + 2]),
        pixels,
    ];
    put_line(out, at, &fields)
}
