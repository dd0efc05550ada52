// The calls of the crates p6 and listing.
use listing::Listing;
use p6::{Fault, Picture};

// Reading a picture.
pub fn read_picture(input: &[u8]) -> Result<Picture, Fault> {
    p6::read_picture(input)
}

// The raster of a picture.
pub fn raster_of(input: &[u8]) -> &[u8] {
    p6::raster_of(input)
}

// The listing of a picture.
pub fn list_shades(input: &[u8]) -> Listing {
    listing::list_shades(input)
}
