// The listing of an input: the calls on it, and then the text of what they left.
ghost use Rattle.std.specs.Prelude.{◌≡◌, ◌≤◌, length};
ghost use Rattle.texts.specs.{PutMeets};
ghost use Rattle.listing_lines.specs.{most_text};
ghost use Rattle.listing_work.specs.{LeftFits};
ghost use Rattle.listing.specs.Works.{work_input};
ghost use Rattle.listing.specs.Listings.{work_text, listing_of};

use super::{Listing, MOST_INPUT};
use grammar::Numeral;
use listing_test::picture_refusal;
use listing_work::{Work, work_picture};
use refusal::Refusal;

// Makes every call on an input: the tests of the count line, of the length and of the picture, and
// then the calls on the picture.
fn work_input(input: &[u8]) -> Result<Work, Refusal>
    ensures { result ≡ work_input input.now }
{
    let Ok(Numeral { value: count, next }) = grammar::number(input, 0) else {
        return Err(Refusal::BadCount);
    };
    if 2 < next {
        return Err(Refusal::BadCount);
    }
    if grammar::byte_at(input, next) != b'\n' {
        return Err(Refusal::BadCount);
    }
    if MOST_INPUT < input.len() {
        return Err(Refusal::BadSize);
    }
    let picture = &input[next + 1..];
    picture_refusal(picture)?;
    work_picture(picture, count as usize)
}

// Writes the text of what the calls left: the lines, or that of the refusal. Requires at most 64
// shades, with their palette and the index picture, and room.
fn write_work(work: Result<Work, Refusal>, out: &mut [u8]) -> usize
    requires { LeftFits work × (most_text ≤ length out.old) }
    ensures { PutMeets 0 (work_text work) out.old result out.new }
{
    let work = match work {
        Ok(work) => work,
        Err(refusal) => return listing_lines::put_refusal(out, u8::from(refusal)),
    };
    let summary = work.summary;
    let palette = work.palette;
    let index = work.index;
    let n = 3 * work.shades;
    let pixels = work.pixels;
    listing_lines::put_lines(out, summary, &palette[..n], &index[..pixels])
}

// The listing of an input: the count of shades as 1 or 2 digits, LF, and a P6 picture. The first
// line gives table colours, pixels, rounds, settled as 1 or 0, final total and distances; a line
// for each shade its number, R, G, B and the pixels mapped to it; the last line the mapping error.
// Refuses by the one line `refused N`, the tests in the order that the front door gives.
pub fn list_shades(input: &[u8]) -> Listing
    ensures { (result ≡ listing_of input.now) × (result.length ≤ length result.text) }
{
    let work = work_input(input);
    let mut text = [0u8; 8448];
    let length = write_work(work, &mut text);
    Listing { length, text }
}
