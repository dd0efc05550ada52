// Reading a header, from its first byte to its last.
ghost use Rattle.std.specs.Prelude.{◌≡◌};
ghost use Rattle.p6_header.specs.Headers.{header_of};

use super::Header;
use super::field::field;
use grammar::byte_at;
use p6_gap::is_white;

// Reads the header at the front of an input: "P6", width, height and depth, each with white bytes
// and comments before it, and one white byte.
pub fn read_header(input: &[u8]) -> Result<Header, usize>
    ensures { result ≡ header_of input.now }
{
    if byte_at(input, 0) != b'P' {
        return Err(0);
    }
    if byte_at(input, 1) != b'6' {
        return Err(1);
    }
    let width = field(input, 2)?;
    let height = field(input, width.next)?;
    let depth = field(input, height.next)?;
    if !is_white(byte_at(input, depth.next)) {
        return Err(depth.next);
    }
    Ok(Header {
        width: width.value,
        height: height.value,
        depth: depth.value,
        start: depth.next + 1,
    })
}
