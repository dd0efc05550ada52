// The listing program: the shade count as 1 or 2 digits, LF and a P6 picture on standard input, the
// listing on standard output. One byte more than an input may have is read, so that a longer one is
// told from one that just fits.
#![tactic(auto)]

use std::io;
use std::io::Read;

fn main(rt: HostRuntime) -> io::Result<()> {
    let mut input = Vec::new(rt.alloc());
    rt.reader().take(65537).read_to_end(&mut input)?;
    let l = listing::list_shades(&input);
    let text = l.text;
    let length = l.length;
    rt.write_all(&text[..length])
}
