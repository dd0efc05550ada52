// Numbers put into a buffer, in decimal.
ghost use Rattle.std.specs.Prelude.{[], ◌∷◌, ◌++◌, ◌+◌, ◌^◌, ◌<◌, ◌≤◌, length};
ghost use Rattle.grammar.specs.{blank, line_feed, most_decimal, decimal_text, short_text};
ghost use Rattle.texts.specs.Putting.{PutMeets};

use super::MOST_DECIMAL;
use super::word::put_byte;

// Puts a number that has at most `most` digits, the digits before the last first. Requires room for
// as many.
fn put_digits(out: &mut [u8], at: usize, value: u64, most: usize) -> usize
    requires { (1 ≤ most) × (value < 10 ^ most) × (at + most ≤ length out.old) }
    ensures { PutMeets at (short_text most value) out.old result out.new }
{
    if value < 10 {
        return put_byte(out, at, b'0' + value as u8);
    }
    let next = put_digits(out, at, value / 10, most - 1);
    put_byte(out, next, b'0' + (value % 10) as u8)
}

// Puts a number, without leading zeros, and the byte behind it. Requires room for 21 bytes.
fn put_number(out: &mut [u8], at: usize, value: u64, end: u8) -> usize
    requires { at + most_decimal + 1 ≤ length out.old }
    ensures { PutMeets at (decimal_text value ++ end ∷ []) out.old result out.new }
{
    let next = put_digits(out, at, value, MOST_DECIMAL);
    put_byte(out, next, end)
}

// Puts a number and the blank behind it. Requires room for 21 bytes.
pub fn put_field(out: &mut [u8], at: usize, value: u64) -> usize
    requires { at + most_decimal + 1 ≤ length out.old }
    ensures { PutMeets at (decimal_text value ++ blank ∷ []) out.old result
        out.new }
{
    put_number(out, at, value, b' ')
}

// Puts the last number of a line, and its LF. Requires room for 21 bytes.
pub fn put_last(out: &mut [u8], at: usize, value: u64) -> usize
    requires { at + most_decimal + 1 ≤ length out.old }
    ensures { PutMeets at (decimal_text value ++ line_feed ∷ []) out.old result
        out.new }
{
    put_number(out, at, value, b'\n')
}
