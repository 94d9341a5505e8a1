//! Which places wait first: after the sweeps, those that would raise the one to their right, or one near them in the row
//! below. The others can raise none: in the last sweep each place was raised by those below it and to its right.
//!
//! The places are looked at by their numbers, many at once. So the last one of a row stands before the first one of the
//! next; where it waits only to raise that, it waits for nothing, and no harm is done.

ghost use Rattle.std.specs.Prelude.{◌≡◌, length};

use crate::frame::Frame;
use crate::queue::LevelQueue;
use crate::samples::{at, is_below, lesser};
use mw_pixel::Pixel;

/// How many places are looked at at once.
const BLOCK: usize = 64;

/// One block of so many tells whether many places wait; of an odd number, so that it is not always the same columns.
const APART: usize = 17;

/// Frames of fewer columns are narrow.
const NARROW: u32 = 64;

/// One place of so many that waits is few.
const FEW: usize = 512;

/// Marks the places whose samples would raise the other ones, within the mask of those.
#[inline(always)]
fn mark<P: Pixel>(marks: &mut [bool], samples: &[P], others: &[P], mask: &[P])
    requires samples { length samples.now ≡ length marks.old }
    requires others { length others.now ≡ length marks.old }
    requires mask { length mask.now ≡ length marks.old }
{
    for i in 0..marks.len() {
        marks[i] |= is_below(others[i], lesser(samples[i], mask[i]));
    }
}

/// Marks those of a block's places that would raise the ones so much further on.
#[inline(always)]
fn mark_ahead<P: Pixel>(
    marks: &mut [bool; BLOCK],
    samples: &[P],
    mask: &[P],
    start: usize,
    ahead: usize,
)
    requires { length samples.now ≡ length mask.now }
{
    if start < samples.len() && ahead < samples.len() - start {
        let other = start + ahead;
        let count = BLOCK.min(samples.len() - other);
        mark(
            &mut marks[..count],
            &samples[start..start + count],
            &samples[other..other + count],
            &mask[other..other + count],
        );
    }
}

/// The places of a block that would raise one.
fn marks_of<P: Pixel>(samples: &[P], mask: &[P], frame: Frame, start: usize) -> [bool; BLOCK]
    requires { length samples.now ≡ length mask.now }
{
    let width = frame.width as usize;
    let mut marks = [false; BLOCK];
    mark_ahead(&mut marks, samples, mask, start, 1);
    mark_ahead(&mut marks, samples, mask, start, width);
    // in one column no places touch at a corner
    if frame.corners && width > 1 {
        mark_ahead(&mut marks, samples, mask, start, width - 1);
        mark_ahead(&mut marks, samples, mask, start, width + 1);
    }
    marks
}

/// How many places of a block are marked.
fn count_marks(marks: &[bool; BLOCK]) -> usize {
    let mut count: usize = 0;
    for i in 0..BLOCK {
        if marks[i] {
            count = count.saturating_add(1);
        }
    }
    count
}

/// Whether so many places would raise one near them that another pair of sweeps costs less than to let them wait: more than one
/// of `FEW` of those that are looked at. In a narrow frame sweeps cost more than they spare.
pub(crate) fn many_wait<P: Pixel>(samples: &[P], mask: &[P], frame: Frame) -> bool
    requires { length samples.now ≡ length mask.now }
{
    if frame.width < NARROW {
        return false;
    }
    let blocks = samples.len().div_ceil(BLOCK * APART);
    let mut count: usize = 0;
    for k in 0..blocks {
        let marks = marks_of(samples, mask, frame, k * (BLOCK * APART));
        count = count.saturating_add(count_marks(&marks));
    }
    count > blocks * BLOCK / FEW
}

/// Lets the marked places of a block wait.
fn wait_marked<P: Pixel>(
    queue: &mut LevelQueue,
    marks: &[bool; BLOCK],
    samples: &[P],
    start: usize,
) {
    for i in 0..BLOCK.min(samples.len().saturating_sub(start)) {
        if marks[i] {
            queue.push(at(samples, start + i).value(), start + i);
        }
    }
}

/// Whether any place is marked.
fn has_marks(marks: &[bool; BLOCK]) -> bool {
    let mut any = false;
    for i in 0..BLOCK {
        any |= marks[i];
    }
    any
}

/// Lets the places wait that would raise one near them.
pub(crate) fn fill<P: Pixel>(queue: &mut LevelQueue, samples: &[P], mask: &[P], frame: Frame)
    requires { length samples.now ≡ length mask.now }
{
    for block in 0..samples.len().div_ceil(BLOCK) {
        let start = block * BLOCK;
        let marks = marks_of(samples, mask, frame, start);
        if has_marks(&marks) {
            wait_marked(queue, &marks, samples, start);
        }
    }
}
