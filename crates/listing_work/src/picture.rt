// The calls on a picture: its table, the run, the palette of its groups, and the mapping.
ghost use Rattle.std.specs.Prelude.{◌≡◌, ◌*◌, ◌≤◌, length};
ghost use Rattle.shades.specs.{most_shades};
ghost use Rattle.listing_work.specs.Works.{left_run, work_picture};

use super::{LISTED_LIMIT, Work};
use listing_lines::Summary;
use lloyd::Ran;
use palette_groups::palette_from_groups;
use refusal::Refusal;
use table::Record;

// The palette of the groups that a run on a table leaves in its members, the raster mapped to it,
// and what is told of both and of the table. Refuses what the mapping refuses. Requires at most 64
// shades, and their coordinates.
fn work_run(
    raster: &[u8],
    rec: Record,
    keys: &[u32],
    weights: &[u32],
    ran: Ran,
    members: &[u32],
    count: usize,
) -> Result<Work, Refusal>
    requires { (count ≤ most_shades) × (3 * count ≤ length ran.shades) }
    ensures { result ≡ left_run raster.now rec keys.now
        weights.now ran members.now count }
{
    let shades = ran.shades;
    let n = 3 * count;
    let mut palette = [0u8; 192];
    // The palette of a run that is made is never refused.
    let _ = palette_from_groups(rec, keys, weights, &shades[..n], members, &mut palette);
    let mut index = [0u8; 8192];
    let error = match mapping::map_strip(raster, &palette[..n], &mut index, 0) {
        Ok(mapped) => mapped.error,
        Err(unmapped) => return Err(unmapped.refusal),
    };
    let summary = Summary {
        used: rec.used as u64,
        pixels: rec.pixels,
        rounds: ran.rounds as u64,
        settled: bits::bit(ran.settled) as u64,
        total: ran.total,
        distances: ran.distances,
        error,
    };
    Ok(Work {
        summary,
        shades: count,
        palette,
        pixels: raster.len() / 3,
        index,
    })
}

// Makes the calls on a picture: its table is filled, a run of at most 20 rounds made, and the
// picture mapped to the palette of its last groups. Refuses what the run refuses, and then what the
// mapping refuses: of a picture that is listed, two shades with one entry.
pub fn work_picture(picture: &[u8], count: usize) -> Result<Work, Refusal>
    ensures { result ≡ work_picture picture.now count }
{
    let raster = p6::raster_of(picture);
    let mut keys = [0u32; 8192];
    let mut weights = [0u32; 8192];
    let empty = Record {
        used: 0,
        pixels: 0,
        red: 0,
        green: 0,
        blue: 0,
    };
    let added = table::add_strip(empty, &mut keys, &mut weights, raster);
    let rec = added.rec;
    let mut members = [0u32; 8192];
    let mut totals = [0u64; LISTED_LIMIT];
    let ran = lloyd::run(
        rec,
        &keys,
        &weights,
        count,
        LISTED_LIMIT,
        &mut members,
        &mut totals,
    )?;
    work_run(raster, rec, &keys, &weights, ran, &members, count)
}
