// The first entry that has an equal before it, and that equal.
ghost use Rattle.std.specs.Prelude.{◌≡◌, false, ◌/◌, ◌<◌, length, MatchOption};
ghost use Rattle.palette_twins.specs.Pairs.{equal_before, has_equal, twins_of};
ghost use Rattle.palette_twins.specs.Sites.{entry_key};

use super::Twins;

// The key of entry `q`, which the palette is required to have. Entries are read by number, and not
// by `chunks_exact`, since earlier ones are read again.
fn entry_key(palette: &[u8], q: usize) -> u32
    requires { q < length palette.now / 3 }
    ensures { result ≡ entry_key palette.now q }
{
    colour::key_at(palette, 3 * q)
}

// The number of the equal before entry `q`, if there is one. Requires the entry.
fn equal_before(palette: &[u8], q: usize) -> Option<usize>
    requires { q < length palette.now / 3 }
    ensures { MatchOption result (has_equal palette.now q ≡ false)
        (λ i. (i < q) × (i ≡ equal_before palette.now q)) }
{
    let key = entry_key(palette, q);
    (0..q).find(|i| entry_key(palette, *i) == key)
}

// The same, looked for only where the entry's site is marked. Requires the entry, and that where
// the site is not marked it has no equal before it.
fn equal_if_marked(palette: &[u8], q: usize, marked: bool) -> Option<usize>
    requires { (q < length palette.now / 3)
        × (marked ≡ false → has_equal palette.now q ≡ false) }
    ensures { MatchOption result (has_equal palette.now q ≡ false)
        (λ i. (i < q) × (i ≡ equal_before palette.now q)) }
{
    if marked {
        equal_before(palette, q)
    } else {
        None
    }
}

// The twins of a palette, whose entries are three bytes each: of two equal ones with the smallest
// higher number both numbers, none where all differ. The site of each entry, its key's remainder,
// is marked; entries that are equal have one site, so an entry whose site is not marked has no
// equal before it, and few others are compared.
pub fn twin_of(palette: &[u8]) -> Option<Twins>
    ensures { result ≡ twins_of palette.now }
{
    let mut marks = [false; 1021];
    for q in 0..palette.len() / 3 {
        let site = (entry_key(palette, q) % 1021) as usize;
        if let Some(lower) = equal_if_marked(palette, q, marks[site]) {
            return Some(Twins { lower, higher: q });
        }
        marks[site] = true;
    }
    None
}
