// The palette of some shades, and the test of a palette.
ghost use Rattle.std.specs.Prelude.{◌≡◌, ◌≤◌, length};
ghost use Rattle.colour.specs.{most_coordinate};
ghost use Rattle.shades.specs.{OnGrid};
ghost use Rattle.palette.specs.Palettes.{level_of, palette_of};
ghost use Rattle.palette.specs.Outcomes.{
  bad_palette,
  palette_from_shades,
  PaletteMeets,
};

use refusal::Refusal;

// Whether this many bytes are no palette: the test of 10 BAD PALETTE.
pub fn bad_palette(palette: &[u8]) -> bool
    ensures { result ≡ bad_palette palette.now }
{
    shades::bad_coordinates(palette.len())
}

// The level of a coordinate: the nearest, a half goes up. Requires a coordinate of a shade.
pub fn level_of(coordinate: u32) -> u8
    requires { coordinate ≤ most_coordinate }
    ensures { result ≡ level_of coordinate }
{
    ((coordinate + 8) / 16) as u8
}

// The levels of all coordinates, into the front of `palette`, the rest of which stays. Requires
// coordinates of shades, and room.
fn fill_palette(coordinates: &[u32], palette: &mut [u8])
    requires { OnGrid coordinates.now × (length coordinates.now ≤ length palette.old) }
    ensures { palette.new
        ≡ palette_of coordinates.now palette.old }
{
    for (i, &coordinate) in coordinates.iter().enumerate() {
        palette[i] = level_of(coordinate);
    }
}

// The palette of the shades in `coordinates`, three bytes each. The count of shades is a third of
// the coordinates lent.
// Refuses, in this order:
//   4 BAD COUNT    the coordinates are not 3 to 192 or not a multiple of 3;
//   8 BAD CENTRE   a coordinate is above 4080;
//   7 SHORT ROOM   the palette bytes are fewer than 3 for each shade.
// Palette bytes past the last shade's stay; a refusal leaves all as they came.
pub fn palette_from_shades(coordinates: &[u32], palette: &mut [u8]) -> Result<(), Refusal>
    ensures { PaletteMeets
        (palette_from_shades coordinates.now palette.old)
        result palette.new }
{
    if shades::bad_coordinates(coordinates.len()) {
        return Err(Refusal::BadCount);
    }
    if shades::bad_centre(coordinates) {
        return Err(Refusal::BadCentre);
    }
    if palette.len() < coordinates.len() {
        return Err(Refusal::ShortRoom);
    }
    fill_palette(coordinates, palette);
    Ok(())
}
