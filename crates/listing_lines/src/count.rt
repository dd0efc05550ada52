// The pixels mapped to each shade, counted in the index picture.
ghost use Rattle.std.specs.Prelude.{◌≡◌, length};
ghost use Rattle.number.specs.{fill};
ghost use Rattle.listing_lines.specs.Texts.{mapped_to};

// How many places of the index picture hold a shade's number.
fn count_of(index: &[u8], q: usize) -> u64
    ensures { result ≡ mapped_to index.now q }
{
    // Not by `filter` and `count`, whose loop is not made into vector code: three times the steps.
    let mut count = 0;
    for number in index {
        count += u64::from(usize::from(*number) == q);
    }
    count
}

// The counts of the first shades, one for each place of `counts`.
pub fn count_shades(index: &[u8], counts: &mut [u64])
    ensures { counts.new ≡ fill (length counts.old) (mapped_to index.now) counts.old }
{
    for (q, count) in counts.iter_mut().enumerate() {
        *count = count_of(index, q);
    }
}
