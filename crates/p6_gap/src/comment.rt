// A comment: `#` and all bytes up to and including the next LF or CR.
ghost use Rattle.std.specs.Prelude.{◌≡◌, ◌<◌, length};
ghost use Rattle.p6_gap.specs.Bytes.{ends_comment};
ghost use Rattle.p6_gap.specs.Gaps.{comment_end};

// Whether a byte ends a comment: LF or CR.
#[tactic(auto, unfolding(crate::specs::Bytes::ends_comment))]
fn ends_comment(byte: u8) -> bool
    ensures { result ≡ ends_comment byte }
{
    matches!(byte, b'\n' | b'\r')
}

// The place behind the comment that opens at `at`: behind the next LF or CR, or the input's length
// where there is none. Requires a place inside the input.
pub fn comment_end(input: &[u8], at: usize) -> usize
    requires { at < length input.now }
    ensures { result ≡ comment_end input.now at }
{
    // Not by `position`, which counts beside the bytes: ten instructions a byte in place of eight.
    for i in at + 1..input.len() {
        if ends_comment(input[i]) {
            return i + 1;
        }
    }
    input.len()
}
