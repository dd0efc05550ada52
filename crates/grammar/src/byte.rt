// A byte of an input, and the decimal digits among the bytes.
ghost use Rattle.std.specs.Prelude.{◌≡◌};
ghost use Rattle.grammar.specs.Bytes.{byte_at, is_digit};

// The byte at a place; 0 past the end.
pub fn byte_at(input: &[u8], at: usize) -> u8
    ensures { result ≡ byte_at input.now at }
{
    input.get(at).copied().unwrap_or(0)
}

// Whether a byte is a decimal digit.
#[tactic(auto, unfolding(crate::specs::Bytes::is_digit))]
pub fn is_digit(byte: u8) -> bool
    ensures { result ≡ is_digit byte }
{
    byte.is_ascii_digit()
}
