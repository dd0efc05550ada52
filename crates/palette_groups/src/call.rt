// The palette of a table's groups.
ghost use Rattle.method.specs.{state_of};
ghost use Rattle.palette.specs.{PaletteMeets};
ghost use Rattle.palette_groups.specs.Outcomes.{palette_from_groups};
ghost use Rattle.palette_groups.specs.Fixed.{palette_from_groups_fixed};

use lloyd_tests::bad_member;
use palette_means::fill_by_groups;
use refusal::Refusal;
use table_test::Record;

// The palette of the shades in `coordinates`, three bytes each: on each channel the level nearest
// to the exact mean of the shade's group, a half going up. The first `fixed` shades, group or none,
// and a shade with no group have the levels that palette_from_shades gives them. The group of a
// shade has the used entries whose member is its number; members past the used entries are not
// looked at. The count of shades is a third of the coordinates lent; `fixed` may be 0.
// Refuses, in this order:
//   2 BAD TABLE    the record and the used entries are no table;
//   4 BAD COUNT    the coordinates are not 3 to 192 or not a multiple of 3, or `fixed` is not
//                  below the count;
//   8 BAD CENTRE   a coordinate is above 4080, also that of a shade with a group;
//   7 SHORT ROOM   there are fewer members than used entries, or fewer palette bytes than 3 for
//                  each shade;
//   9 BAD MEMBER   a used entry's member is not below the count.
// Palette bytes past the last shade's stay; a refusal leaves all as they came.
pub fn palette_from_groups_fixed(
    rec: Record,
    keys: &[u32],
    weights: &[u32],
    coordinates: &[u32],
    members: &[u32],
    fixed: usize,
    palette: &mut [u8],
) -> Result<(), Refusal>
    ensures { PaletteMeets
        (palette_from_groups_fixed fixed rec keys.now weights.now
        (state_of coordinates.now members.now) palette.old)
        result palette.new }
{
    if table_test::bad_table(rec, keys, weights) {
        return Err(Refusal::BadTable);
    }
    if shades::bad_coordinates(coordinates.len()) {
        return Err(Refusal::BadCount);
    }
    if coordinates.len() / 3 <= fixed {
        return Err(Refusal::BadCount);
    }
    if shades::bad_centre(coordinates) {
        return Err(Refusal::BadCentre);
    }
    let used = rec.used;
    if members.len() < used {
        return Err(Refusal::ShortRoom);
    }
    if palette.len() < coordinates.len() {
        return Err(Refusal::ShortRoom);
    }
    let count = coordinates.len() / 3;
    if bad_member(members, used, count) {
        return Err(Refusal::BadMember);
    }
    fill_by_groups(keys, weights, used, coordinates, members, fixed, palette);
    Ok(())
}

// The palette of the shades in `coordinates`, three bytes each: on each channel the level nearest
// to the exact mean of the shade's group, a half going up; a shade with no group has the levels
// that palette_from_shades gives it. The group of a shade has the used entries whose member is its
// number; members past the used entries are not looked at. The count of shades is a third of the
// coordinates lent.
// Refuses, in this order:
//   2 BAD TABLE    the record and the used entries are no table;
//   4 BAD COUNT    the coordinates are not 3 to 192 or not a multiple of 3;
//   8 BAD CENTRE   a coordinate is above 4080, also that of a shade with a group;
//   7 SHORT ROOM   there are fewer members than used entries, or fewer palette bytes than 3 for
//                  each shade;
//   9 BAD MEMBER   a used entry's member is not below the count.
// Palette bytes past the last shade's stay; a refusal leaves all as they came. It is a call beside
// the one that is told how many shades are fixed, as C links each by its name.
pub fn palette_from_groups(
    rec: Record,
    keys: &[u32],
    weights: &[u32],
    coordinates: &[u32],
    members: &[u32],
    palette: &mut [u8],
) -> Result<(), Refusal>
    ensures { PaletteMeets
        (palette_from_groups rec keys.now weights.now
        (state_of coordinates.now members.now) palette.old)
        result palette.new }
{
    palette_from_groups_fixed(rec, keys, weights, coordinates, members, 0, palette)
}
