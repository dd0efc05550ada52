// The answers of mappings and readings in arrays.
ghost use Rattle.std.specs.Prelude.{◌≡◌};
ghost use Rattle.figures.specs.{mean_number};
ghost use Rattle.palette_twins.specs.{told_pair};
ghost use Rattle.arrays.specs.Arrays.{figure_in, map_numbers, map_figures, picture_numbers};

use mapping::{Mapped, Unmapped};
use p6::{Fault, Picture};
use palette_twins::Twins;

// 1 where there is a mean, 0 for "no pixels".
fn has_mean(mean: Option<f64>) -> u64
    ensures { result ≡ mean_number mean }
{
    match mean {
        None => 0,
        Some(_) => 1,
    }
}

// The mean, zero for "no pixels".
fn figure_in(mean: Option<f64>) -> f64
    ensures { result ≡ figure_in mean }
{
    match mean {
        None => 0.0,
        Some(x) => x,
    }
}

// The numbers of twins, 0 and 0 for none.
fn told_pair(twins: Option<Twins>) -> Twins
    ensures { result ≡ told_pair twins }
{
    match twins {
        None => Twins {
            lower: 0,
            higher: 0,
        },
        Some(twins) => twins,
    }
}

// The errors of a mapping: the whole, that of R, of G and of B; then 1 where there is a mean, and
// the lower and the higher number of the twins. Of a refused one zeros, but for the twins.
pub fn map_numbers(answer: Result<Mapped, Unmapped>) -> [u64; 7]
    ensures { result ≡ map_numbers answer }
{
    match answer {
        Ok(mapped) => {
            let errors = mapped.errors;
            [
                mapped.error,
                errors.red,
                errors.green,
                errors.blue,
                has_mean(mapped.mean),
                0,
                0,
            ]
        }
        Err(unmapped) => {
            let twins = told_pair(unmapped.twins);
            [0, 0, 0, 0, 0, twins.lower as u64, twins.higher as u64]
        }
    }
}

// The figures of a mapping: the mean, then those of R, G and B. Of a refused one zeros.
pub fn map_figures(answer: Result<Mapped, Unmapped>) -> [f64; 4]
    ensures { result ≡ map_figures answer }
{
    match answer {
        Ok(mapped) => {
            let channels = mapped.means;
            [
                figure_in(mapped.mean),
                channels.red,
                channels.green,
                channels.blue,
            ]
        }
        Err(_) => [0.0, 0.0, 0.0, 0.0],
    }
}

// The answer of a reading: the offset, width, height and the first place of the raster, zeros for
// what it does not tell.
pub fn picture_numbers(a: Result<Picture, Fault>) -> [u64; 4]
    ensures { result ≡ picture_numbers a }
{
    match a {
        Ok(picture) => [
            0,
            u64::from(picture.width),
            u64::from(picture.height),
            picture.start as u64,
        ],
        Err(fault) => [fault.offset as u64, 0, 0, 0],
    }
}
