// The calls of the crate kohlenfloh, as a C or Rust program makes them.

// Adding a strip.
pub fn kf_add_strip(
    rec: &mut [u64; 5],
    keys: &mut [u32],
    weights: &mut [u32],
    strip: &[u8],
    taken: &mut [u64; 1],
) -> u32 {
    kohlenfloh::kf_add_strip(rec, keys, weights, strip, taken)
}

// A plain round.
pub fn kf_plain_round(
    rec: &[u64; 5],
    keys: &[u32],
    weights: &[u32],
    coordinates: &mut [u32],
    members: &mut [u32],
    answer: &mut [u64; 3],
) -> u32 {
    kohlenfloh::kf_plain_round(rec, keys, weights, coordinates, members, answer)
}

// A shortened round.
pub fn kf_short_round(
    rec: &[u64; 5],
    keys: &[u32],
    weights: &[u32],
    coordinates: &mut [u32],
    members: &mut [u32],
    answer: &mut [u64; 3],
) -> u32 {
    kohlenfloh::kf_short_round(rec, keys, weights, coordinates, members, answer)
}

// A run.
pub fn kf_run(
    rec: &[u64; 5],
    keys: &[u32],
    weights: &[u32],
    count: usize,
    limit: usize,
    members: &mut [u32],
    totals: &mut [u64],
    shades: &mut [u32; 192],
    answer: &mut [u64; 4],
) -> u32 {
    kohlenfloh::kf_run(
        rec, keys, weights, count, limit, members, totals, shades, answer,
    )
}

// A Jancey run.
pub fn kf_run_jancey(
    rec: &[u64; 5],
    keys: &[u32],
    weights: &[u32],
    count: usize,
    limit: usize,
    members: &mut [u32],
    totals: &mut [u64],
    shades: &mut [u32; 192],
    answer: &mut [u64; 4],
) -> u32 {
    kohlenfloh::kf_run_jancey(
        rec, keys, weights, count, limit, members, totals, shades, answer,
    )
}

// A run with fixed shades.
pub fn kf_run_fixed(
    rec: &[u64; 5],
    keys: &[u32],
    weights: &[u32],
    fixed: &[u8],
    count: usize,
    limit: usize,
    members: &mut [u32],
    totals: &mut [u64],
    shades: &mut [u32; 192],
    answer: &mut [u64; 4],
) -> u32 {
    kohlenfloh::kf_run_fixed(
        rec, keys, weights, fixed, count, limit, members, totals, shades, answer,
    )
}

// A palette from shades.
pub fn kf_palette_from_shades(coordinates: &[u32], palette: &mut [u8]) -> u32 {
    kohlenfloh::kf_palette_from_shades(coordinates, palette)
}

// A palette of groups.
pub fn kf_palette_from_groups(
    rec: &[u64; 5],
    keys: &[u32],
    weights: &[u32],
    coordinates: &[u32],
    members: &[u32],
    palette: &mut [u8],
) -> u32 {
    kohlenfloh::kf_palette_from_groups(rec, keys, weights, coordinates, members, palette)
}

// A palette of groups, the first shades fixed.
pub fn kf_palette_from_groups_fixed(
    rec: &[u64; 5],
    keys: &[u32],
    weights: &[u32],
    coordinates: &[u32],
    members: &[u32],
    fixed: usize,
    palette: &mut [u8],
) -> u32 {
    kohlenfloh::kf_palette_from_groups_fixed(
        rec,
        keys,
        weights,
        coordinates,
        members,
        fixed,
        palette,
    )
}

// Mapping a strip.
pub fn kf_map_strip(
    strip: &[u8],
    palette: &[u8],
    index: &mut [u8],
    first: usize,
    answer: &mut [u64; 7],
    means: &mut [f64; 4],
) -> u32 {
    kohlenfloh::kf_map_strip(strip, palette, index, first, answer, means)
}

// Reading a picture.
pub fn kf_read_picture(input: &[u8], answer: &mut [u64; 4]) -> u32 {
    kohlenfloh::kf_read_picture(input, answer)
}
