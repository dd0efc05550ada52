// Palettes, index pictures and P6 pictures across the boundary.
ghost use Rattle.method.specs.{state_of};
ghost use Rattle.palette.specs.{palette_from_shades};
ghost use Rattle.palette_groups.specs.{palette_from_groups, palette_from_groups_fixed};
ghost use Rattle.mapping.specs.{map_strip};
ghost use Rattle.p6.specs.{read_picture};
ghost use Rattle.arrays.specs.{record_in};
ghost use Rattle.kohlenfloh.specs.Crossing.{PaletteCrosses, MapCrosses, PictureCrosses};

// The palette of some shades: palette::palette_from_shades.
// Refuses, in this order: 4 BAD COUNT, 8 BAD CENTRE, 7 SHORT ROOM, with the palette as it came.
#[unsafe(no_mangle)]
pub extern "C" fn kf_palette_from_shades(coordinates: &[u32], palette: &mut [u8]) -> u32
    ensures { PaletteCrosses
        (palette_from_shades coordinates.now palette.old)
        result palette.new }
{
    kohlenfloh::kf_palette_from_shades(coordinates, palette)
}

// The palette of the groups that the members tell: palette_groups::palette_from_groups.
// Refuses, in this order: 2 BAD TABLE, 4 BAD COUNT, 8 BAD CENTRE, 7 SHORT ROOM, 9 BAD MEMBER, with
// the palette as it came.
#[unsafe(no_mangle)]
pub extern "C" fn kf_palette_from_groups(
    rec: &[u64; 5],
    keys: &[u32],
    weights: &[u32],
    coordinates: &[u32],
    members: &[u32],
    palette: &mut [u8],
) -> u32
    ensures { PaletteCrosses
        (palette_from_groups (record_in rec.now) keys.now
        weights.now (state_of coordinates.now members.now)
        palette.old)
        result palette.new }
{
    kohlenfloh::kf_palette_from_groups(rec, keys, weights, coordinates, members, palette)
}

// The palette of the groups that the members tell, the first `fixed` shades in their own levels:
// palette_groups::palette_from_groups_fixed.
// Refuses, in this order: 2 BAD TABLE, 4 BAD COUNT, 8 BAD CENTRE, 7 SHORT ROOM, 9 BAD MEMBER, with
// the palette as it came.
#[unsafe(no_mangle)]
pub extern "C" fn kf_palette_from_groups_fixed(
    rec: &[u64; 5],
    keys: &[u32],
    weights: &[u32],
    coordinates: &[u32],
    members: &[u32],
    fixed: usize,
    palette: &mut [u8],
) -> u32
    ensures { PaletteCrosses
        (palette_from_groups_fixed fixed (record_in rec.now) keys.now
        weights.now (state_of coordinates.now members.now)
        palette.old)
        result palette.new }
{
    kohlenfloh::kf_palette_from_groups_fixed(
        rec,
        keys,
        weights,
        coordinates,
        members,
        fixed,
        palette,
    )
}

// Maps a strip into its stretch of the index picture: mapping::map_strip. `answer` receives the
// error, that of R, of G and of B, 1 where there is a mean, and the lower and the higher number of
// the twins; `means` the mean and those of R, G and B.
// Refuses, in this order: 1 BAD STRIP, 10 BAD PALETTE, 18 TWIN SHADE, 11 MANY PIXELS, 7 SHORT ROOM,
// with zeros in answer and means, but for the twins of 18, and the index picture as it came.
#[unsafe(no_mangle)]
pub extern "C" fn kf_map_strip(
    strip: &[u8],
    palette: &[u8],
    index: &mut [u8],
    first: usize,
    answer: &mut [u64; 7],
    means: &mut [f64; 4],
) -> u32
    ensures { MapCrosses
        (map_strip strip.now palette.now index.old first)
        result index.new answer.new means.new }
{
    kohlenfloh::kf_map_strip(strip, palette, index, first, answer, means)
}

// Reads a P6 picture: p6::read_picture. `answer` receives the offset, width, height and the first
// place of the raster.
// Refuses, in this order: 12 BAD HEADER, 13 BAD SIZE, 14 BAD DEPTH, 15 BAD RASTER, with zeros in
// the answer, but for the offset of 12.
#[unsafe(no_mangle)]
pub extern "C" fn kf_read_picture(input: &[u8], answer: &mut [u64; 4]) -> u32
    ensures { PictureCrosses (read_picture input.now) result answer.new }
{
    kohlenfloh::kf_read_picture(input, answer)
}
