// White bytes.
ghost use Rattle.std.specs.Prelude.{◌≡◌};
ghost use Rattle.p6_gap.specs.Bytes.{is_white};

// Whether a byte is white: blank, TAB, CR or LF.
#[tactic(auto, unfolding(crate::specs::Bytes::is_white))]
pub fn is_white(byte: u8) -> bool
    ensures { result ≡ is_white byte }
{
    matches!(byte, b' ' | b'\t' | b'\r' | b'\n')
}
