// A picture, and its raster.
ghost use Rattle.std.specs.Prelude.{◌≡◌};
ghost use Rattle.p6.specs.Outcomes.{read_picture, raster_of};

use super::test::{bad_raster, bad_size};
use super::{DEPTH, Fault, Picture};
use p6_header::Header;
use refusal::Refusal;

// Reads a P6 picture: its width and height, and where its raster begins.
// Refuses, in this order:
//   12 BAD HEADER   a byte cannot stand where it does, or the input ends early, be it inside a
//                   comment; the offset is that byte's, or the input's length;
//   13 BAD SIZE     a side is not 1 to 16,384, or the pixels are more than 16,777,216;
//   14 BAD DEPTH    the depth is not 255;
//   15 BAD RASTER   the bytes after the header are fewer or more than 3 for each pixel.
// BAD HEADER carries its offset, and another refusal 0.
pub fn read_picture(input: &[u8]) -> Result<Picture, Fault>
    ensures { result ≡ read_picture input.now }
{
    let Header {
        width,
        height,
        depth,
        start,
    } = match p6_header::read_header(input) {
        Ok(header) => header,
        Err(at) => {
            return Err(Fault {
                refusal: Refusal::BadHeader,
                offset: at,
            });
        }
    };
    if bad_size(width, height) {
        return Err(without_offset(Refusal::BadSize));
    }
    if depth != DEPTH {
        return Err(without_offset(Refusal::BadDepth));
    }
    if bad_raster(width, height, input.len() - start) {
        return Err(without_offset(Refusal::BadRaster));
    }
    Ok(Picture {
        width,
        height,
        start,
    })
}

// A refusal that tells no place.
fn without_offset(refusal: Refusal) -> Fault
    ensures { result ≡ record { refusal = refusal; offset = 0 } }
{
    Fault { refusal, offset: 0 }
}

// The raster of a P6 picture: that stretch of the input, uncopied. Refuses nothing: of an input
// that read_picture refuses it is empty.
pub fn raster_of(input: &[u8]) -> &[u8]
    ensures { result.now ≡ raster_of input.now }
{
    match read_picture(input) {
        Ok(picture) => &input[picture.start..],
        Err(_) => &input[..0],
    }
}
