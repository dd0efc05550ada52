// The calls of the crates palette, palette_groups, palette_twins and mapping.
use mapping::{Mapped, Unmapped};
use palette_twins::Twins;
use refusal::Refusal;
use table::Record;

// A palette from shades.
pub fn palette_from_shades(coordinates: &[u32], palette: &mut [u8]) -> Result<(), Refusal> {
    palette::palette_from_shades(coordinates, palette)
}

// A palette of groups.
pub fn palette_from_groups(
    rec: Record,
    keys: &[u32],
    weights: &[u32],
    coordinates: &[u32],
    members: &[u32],
    palette: &mut [u8],
) -> Result<(), Refusal> {
    palette_groups::palette_from_groups(rec, keys, weights, coordinates, members, palette)
}

// A palette of groups, the first shades fixed.
pub fn palette_from_groups_fixed(
    rec: Record,
    keys: &[u32],
    weights: &[u32],
    coordinates: &[u32],
    members: &[u32],
    fixed: usize,
    palette: &mut [u8],
) -> Result<(), Refusal> {
    palette_groups::palette_from_groups_fixed(
        rec,
        keys,
        weights,
        coordinates,
        members,
        fixed,
        palette,
    )
}

// The test of a palette.
pub fn bad_palette(palette: &[u8]) -> bool {
    palette::bad_palette(palette)
}

// The twins of a palette.
pub fn twin_of(palette: &[u8]) -> Option<Twins> {
    palette_twins::twin_of(palette)
}

// Mapping a strip.
pub fn map_strip(
    strip: &[u8],
    palette: &[u8],
    index: &mut [u8],
    first: usize,
) -> Result<Mapped, Unmapped> {
    mapping::map_strip(strip, palette, index, first)
}
