// The refusals by name and number, and "the first test that holds".
// A call refuses with the first row of its order whose test holds, and with none where none does.
//
//    1 BAD STRIP       6 BAD LIMIT      11 MANY PIXELS    18 TWIN SHADE
//    2 BAD TABLE       7 SHORT ROOM     12 BAD HEADER
//    3 FULL            8 BAD CENTRE     13 BAD SIZE
//    4 BAD COUNT       9 BAD MEMBER     14 BAD DEPTH
//    5 FEW COLOURS    10 BAD PALETTE    15 BAD RASTER
//
// A call answers a `Result` whose error is a `Refusal`, or has one beside what it tells with it;
// adding a strip has one beside what it took. Where a number is told, at the boundary and in a
// listing, it is that of the refusal:
//   u8::from    the number of a refusal
//   number_in   the number that stands for a refusal or none, 0 for none
// A definition reads a list of rows by `first_refusal`. What each test is stands in the crate of
// the call that makes it.
//
// Read next: specs/Lib.antt (what the words mean), proofs/Promises.antt (what is shown of them).

#![tactic(auto)]

ghost use Rattle.std.specs.Prelude.{◌≡◌};
ghost use Rattle.refusal.specs.Numbers.{number_of, number_in};

// Why a call refuses.
#[derive(Clone, Copy, Debug, PartialEq, Eq)]
pub enum Refusal {
    BadStrip,
    BadTable,
    Full,
    BadCount,
    FewColours,
    BadLimit,
    ShortRoom,
    BadCentre,
    BadMember,
    BadPalette,
    ManyPixels,
    BadHeader,
    BadSize,
    BadDepth,
    BadRaster,
    TwinShade,
}

impl From<Refusal> for u8 {
    ghost from_gives = { λ refusal number. number ≡ number_of refusal };

    fn from(refusal: Refusal) -> u8 {
        match refusal {
            Refusal::BadStrip => 1,
            Refusal::BadTable => 2,
            Refusal::Full => 3,
            Refusal::BadCount => 4,
            Refusal::FewColours => 5,
            Refusal::BadLimit => 6,
            Refusal::ShortRoom => 7,
            Refusal::BadCentre => 8,
            Refusal::BadMember => 9,
            Refusal::BadPalette => 10,
            Refusal::ManyPixels => 11,
            Refusal::BadHeader => 12,
            Refusal::BadSize => 13,
            Refusal::BadDepth => 14,
            Refusal::BadRaster => 15,
            Refusal::TwinShade => 18,
        }
    }
}

// The number that stands for a refusal or none: 0 for none.
pub fn number_in(refusal: Option<Refusal>) -> u8
    ensures { result ≡ number_in refusal }
{
    match refusal {
        None => 0,
        Some(refusal) => u8::from(refusal),
    }
}
