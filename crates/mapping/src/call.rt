// A strip mapped into its stretch of the index picture.
ghost use Rattle.std.specs.Prelude.{◌≡◌, ◌+◌, ◌≤◌, length};
ghost use Rattle.number.specs.{fill_from};
ghost use Rattle.colour.specs.{most_pixels};
ghost use Rattle.map_blocks.specs.{entry_for, errors_of, Mappable, SmallErrors};
ghost use Rattle.mapping.specs.Outcomes.{answer_of, map_strip, MapMeets};

use super::{Mapped, Unmapped};
use map_errors::Errors;
use refusal::Refusal;

// The answer of a strip that is mapped, from its errors and its pixel count. Requires errors as
// small as a strip's.
fn answer(errors: Errors, pixels: u64) -> Mapped
    requires { SmallErrors errors × (pixels ≤ most_pixels) }
    ensures { result ≡ answer_of errors pixels }
{
    let red = errors.red;
    let green = errors.green;
    let blue = errors.blue;
    let error = red + green + blue;
    Mapped {
        error,
        errors,
        mean: figures::mean_figure(error, pixels),
        means: figures::channel_means(red, green, blue, pixels),
    }
}

// Lends the stretch of `index` that begins at `first` on to the strip mapper. Requires that the
// stretch lies within the picture, and what the mapper asks.
fn map_stretch(
    strip: &[u8],
    palette: &[u8],
    index: &mut [u8],
    first: usize,
    pixels: usize,
) -> Errors
    requires { Mappable strip.now palette.now pixels
        × (first + pixels ≤ length index.old) }
    ensures index { index.new
        ≡ fill_from first pixels (entry_for palette.now strip.now)
        index.old }
    ensures errors { result ≡ errors_of palette.now strip.now pixels }
{
    let end = first + pixels;
    map_blocks::map_pixels(strip, palette, &mut index[first..end])
}

// Maps a strip into its own stretch of the index picture: from place `first` on, one byte a pixel,
// the number of the nearest palette entry.
// Refuses, in this order:
//    1 BAD STRIP     the strip's bytes are not a multiple of 3;
//   10 BAD PALETTE   the palette's bytes are not 3 to 192 or not a multiple of 3;
//   18 TWIN SHADE    two entries of the palette are equal;
//   11 MANY PIXELS   the strip has more than 16,777,216 pixels;
//    7 SHORT ROOM    the stretch goes past the end of the index picture.
// Answers error and figures of this strip; with TWIN SHADE the numbers of the two entries, of
// several pairs that with the smallest higher number. Every other index byte stays, and a refusal
// leaves all as they came.
pub fn map_strip(
    strip: &[u8],
    palette: &[u8],
    index: &mut [u8],
    first: usize,
) -> Result<Mapped, Unmapped>
    ensures { MapMeets
        (map_strip strip.now palette.now index.old first)
        result index.new }
{
    if strip.len() % 3 != 0 {
        return Err(Unmapped::from(Refusal::BadStrip));
    }
    if palette::bad_palette(palette) {
        return Err(Unmapped::from(Refusal::BadPalette));
    }
    if let Some(twins) = palette_twins::twin_of(palette) {
        return Err(Unmapped {
            refusal: Refusal::TwinShade,
            twins: Some(twins),
        });
    }
    let pixels = strip.len() / 3;
    let count = pixels as u64;
    if colour::MOST_PIXELS < count {
        return Err(Unmapped::from(Refusal::ManyPixels));
    }
    let room = index.len();
    if room < pixels {
        return Err(Unmapped::from(Refusal::ShortRoom));
    }
    let last = room - pixels;
    if last < first {
        return Err(Unmapped::from(Refusal::ShortRoom));
    }
    let errors = map_stretch(strip, palette, index, first, pixels);
    Ok(answer(errors, count))
}
