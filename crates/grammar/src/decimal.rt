// A number in decimal, read at a place of an input.
ghost use Rattle.std.specs.Prelude.{◌≡◌, ℕ, ◌<◌, ◌≤◌, true, length};
ghost use Rattle.grammar.specs.Bytes.{byte_at, is_digit};
ghost use Rattle.grammar.specs.Decimals.{decimal};
ghost use Rattle.grammar.specs.Numbers.{most_digits, digits_at, number_at};

use super::byte::is_digit;
use super::{MOST_DIGITS, Numeral};

// How many digits stand from `at` on, at most five.
fn count_digits(input: &[u8], at: usize) -> usize
    ensures { (result ≡ digits_at input.now at) × (result ≤ most_digits) }
{
    let digits = input.iter().skip(at).take(MOST_DIGITS);
    digits.take_while(|byte| is_digit(**byte)).count()
}

// The value of these digits. Requires that they are digits, and at most five.
fn decimal_of(digits: &[u8]) -> u32
    requires all { (i : ℕ) → i < length digits.now → is_digit (byte_at digits.now i) ≡ true }
    requires few { length digits.now ≤ most_digits }
    ensures { result ≡ decimal (length digits.now) (byte_at digits.now) }
{
    let mut value: u32 = 0;
    for digit in digits {
        value = 10 * value + u32::from(*digit - b'0');
    }
    value
}

// The number from `at` on: 1 to 5 digits. With no digit there it fails at `at`.
pub fn number(input: &[u8], at: usize) -> Result<Numeral, usize>
    ensures { result ≡ number_at input.now at }
{
    let count = count_digits(input, at);
    if count == 0 {
        return Err(at);
    }
    let next = at + count;
    let value = decimal_of(&input[at..next]);
    Ok(Numeral { value, next })
}
