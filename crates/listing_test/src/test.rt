// The tests of a picture that is to be listed.
ghost use Rattle.std.specs.Prelude.{◌≡◌};
ghost use Rattle.std.specs.Result.{result_err};
ghost use Rattle.refusal.specs.{first_refusal};
ghost use Rattle.listing_test.specs.Refusals.{small_rows};

use super::MOST_LISTED;
use p6_header::Header;
use refusal::Refusal;

// The first test of a picture that holds is its refusal: its own tests, where more than 8,192
// pixels are BAD SIZE too.
pub fn picture_refusal(picture: &[u8]) -> Result<(), Refusal>
    ensures { result_err result ≡ first_refusal (small_rows picture.now) }
{
    let Ok(Header { width, height, .. }) = p6_header::read_header(picture) else {
        return Err(Refusal::BadHeader);
    };
    if p6::bad_size(width, height) {
        return Err(Refusal::BadSize);
    }
    if MOST_LISTED < p6::area(width, height) {
        return Err(Refusal::BadSize);
    }
    p6::read_picture(picture)?;
    Ok(())
}
