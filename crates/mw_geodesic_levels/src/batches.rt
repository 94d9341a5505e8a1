//! Which places of a batch would raise one near them. They are looked at without a branch, so that the processor asks for the
//! memory of many at once; most of them raise none.

ghost use Rattle.std.specs.Prelude.{◌≡◌, ◌*◌, ◌<◌, length};

use crate::frame::Frame;
use crate::queue::{Batch, PLACES};
use crate::samples::{at, is_below, lesser};
use mw_pixel::Pixel;

/// Whether the sample with a number would be raised to another one.
#[inline(always)]
fn rises<P: Pixel>(samples: &[P], mask: &[P], s: P, i: usize) -> bool
    requires size { i < length samples.now }
    requires mask { i < length mask.now }
{
    is_below(at(samples, i), lesser(s, at(mask, i)))
}

/// Whether a place still has a level and would raise one near it. Those that others have near them across the edge count as
/// well, and of the first and the last rows all: who is marked in vain, offers in vain.
#[inline(always)]
fn is_marked<P: Pixel>(samples: &[P], mask: &[P], frame: Frame, place: u32, level: usize) -> bool
    requires { length samples.now ≡ length mask.now }
{
    let (i, width) = (place as usize, frame.width as usize);
    let count = samples.len();
    if i <= width || i >= count || count - i <= width + 1 {
        return true;
    }
    let s = at(samples, i);
    let mut any = rises(samples, mask, s, i - 1);
    any |= rises(samples, mask, s, i + 1);
    any |= rises(samples, mask, s, i - width);
    any |= rises(samples, mask, s, i + width);
    if frame.corners {
        any |= rises(samples, mask, s, i - width - 1);
        any |= rises(samples, mask, s, i - width + 1);
        any |= rises(samples, mask, s, i + width - 1);
        any |= rises(samples, mask, s, i + width + 1);
    }
    // raised since, it was taken at a higher level before
    any && usize::from(s.value()) == level
}

/// Marks the places of a batch that would raise one near them.
#[inline(never)]
pub(crate) fn marks_of_batch<P: Pixel>(
    samples: &[P],
    mask: &[P],
    frame: Frame,
    batch: &Batch,
) -> [bool; PLACES]
    requires { length samples.now ≡ length mask.now }
{
    let mut marks = [false; PLACES];
    for k in 0..batch.count.min(PLACES) {
        marks[k] = is_marked(samples, mask, frame, batch.places[k], batch.level);
    }
    marks
}
