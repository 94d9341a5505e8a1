//! Sweeps over all rows, by which most places get their last level.

ghost use Rattle.std.specs.Prelude.{◌≡◌, ◌⊎◌, ◌+◌, ◌*◌, ◌<◌, ◌≤◌, length, min, max, true};
ghost use Rattle.mw_geodesic_levels.specs.Levels.{level_numbered, IsNearby, IsPut, IsRaised};

use crate::frame::{Frame, Place};
use crate::near::{above, below};
use crate::runs::{run_left, run_right};
use crate::samples::{at, greater, lesser, put};
use crate::waiting::many_wait;
use mw_pixel::Pixel;

/// At most so many pairs of sweeps are made.
const PAIRS: u32 = 4;

/// Raises the sample with a number to another, within the mask, and tells which one it is then.
#[inline(always)]
fn raise<P: Pixel>(samples: &mut [P], mask: &[P], i: usize, s: P) -> P
    requires size { i < length samples.old }
    requires mask { i < length mask.now }
    ensures level { P.level result ≡ max (level_numbered P.level samples.old i) (min (P.level s) (level_numbered P.level mask.now i)) }
    ensures put { IsPut (P.level result) i (level_numbered P.level samples.old) (level_numbered P.level samples.new) }
{
    let raised = greater(at(samples, i), lesser(s, at(mask, i)));
    put(samples, i, raised);
    raised
}

/// Raises the sample of a place to that of one near it, within the mask.
#[inline(always)]
pub(crate) fn pull<P: Pixel>(samples: &mut [P], mask: &[P], frame: Frame, p: Place, q: Place)
    requires size { length samples.old ≡ frame.height * frame.width }
    requires mask { length mask.now ≡ frame.height * frame.width }
    requires column { p.x < frame.width }
    requires row { p.y < frame.height }
    requires other_column { q.x < frame.width }
    requires other_row { q.y < frame.height }
    requires near { IsNearby frame.corners p.x p.y q.x q.y }
    ensures { IsRaised frame (level_numbered P.level mask.now) (level_numbered P.level samples.old) (level_numbered P.level samples.new) }
{
    let s = at(samples, frame.number(q.x, q.y));
    raise(samples, mask, frame.number(p.x, p.y), s);
}

/// Raises the samples of row y, each to that of its column in row v.
#[inline(always)]
fn pull_straight<P: Pixel>(samples: &mut [P], mask: &[P], frame: Frame, y: u32, v: u32)
    requires size { length samples.old ≡ frame.height * frame.width }
    requires mask { length mask.now ≡ frame.height * frame.width }
    requires row { y < frame.height }
    requires other { v < frame.height }
    requires down { y ≤ v + 1 }
    requires up { v ≤ y + 1 }
    ensures { IsRaised frame (level_numbered P.level mask.now) (level_numbered P.level samples.old) (level_numbered P.level samples.new) }
{
    for x in 0..frame.width {
        pull(samples, mask, frame, Place { x, y }, Place { x, y: v });
    }
}

/// Raises the samples of row y, each to that of the column before in row v.
#[inline(always)]
fn pull_from_left<P: Pixel>(samples: &mut [P], mask: &[P], frame: Frame, y: u32, v: u32)
    requires size { length samples.old ≡ frame.height * frame.width }
    requires mask { length mask.now ≡ frame.height * frame.width }
    requires row { y < frame.height }
    requires other { v < frame.height }
    requires down { y ≤ v + 1 }
    requires up { v ≤ y + 1 }
    requires across { frame.corners ≡ true }
    ensures { IsRaised frame (level_numbered P.level mask.now) (level_numbered P.level samples.old) (level_numbered P.level samples.new) }
{
    for x in 1..frame.width {
        pull(
            samples,
            mask,
            frame,
            Place { x, y },
            Place { x: x - 1, y: v },
        );
    }
}

/// Raises the samples of row y, each to that of the column behind in row v.
#[inline(always)]
fn pull_from_right<P: Pixel>(samples: &mut [P], mask: &[P], frame: Frame, y: u32, v: u32)
    requires size { length samples.old ≡ frame.height * frame.width }
    requires mask { length mask.now ≡ frame.height * frame.width }
    requires row { y < frame.height }
    requires other { v < frame.height }
    requires down { y ≤ v + 1 }
    requires up { v ≤ y + 1 }
    requires across { frame.corners ≡ true }
    ensures { IsRaised frame (level_numbered P.level mask.now) (level_numbered P.level samples.old) (level_numbered P.level samples.new) }
{
    for u in 1..frame.width {
        pull(
            samples,
            mask,
            frame,
            Place { x: u - 1, y },
            Place { x: u, y: v },
        );
    }
}

/// Raises the samples of row y to those near them in row v. It is not inlined: so the mask is known to lie apart from the
/// samples, and many go at once.
#[inline(never)]
fn lift<P: Pixel>(samples: &mut [P], mask: &[P], frame: Frame, y: u32, v: u32)
    requires size { length samples.old ≡ frame.height * frame.width }
    requires mask { length mask.now ≡ frame.height * frame.width }
    requires row { y < frame.height }
    requires other { v < frame.height }
    requires down { y ≤ v + 1 }
    requires up { v ≤ y + 1 }
    ensures { IsRaised frame (level_numbered P.level mask.now) (level_numbered P.level samples.old) (level_numbered P.level samples.new) }
{
    pull_straight(samples, mask, frame, y, v);
    if frame.corners {
        pull_from_left(samples, mask, frame, y, v);
        pull_from_right(samples, mask, frame, y, v);
    }
}

/// Raises all samples, row by row from the top, each row by the one above and then from its left.
pub(crate) fn sweep_down<P: Pixel>(samples: &mut [P], mask: &[P], frame: Frame)
    requires size { length samples.old ≡ frame.height * frame.width }
    requires mask { length mask.now ≡ frame.height * frame.width }
    ensures { IsRaised frame (level_numbered P.level mask.now) (level_numbered P.level samples.old) (level_numbered P.level samples.new) }
{
    for y in 0..frame.height {
        lift(samples, mask, frame, y, above(y));
        run_right(samples, mask, frame, y);
    }
}

/// Raises all samples, row by row from the bottom, each row by the one below and then from its right.
pub(crate) fn sweep_up<P: Pixel>(samples: &mut [P], mask: &[P], frame: Frame)
    requires size { length samples.old ≡ frame.height * frame.width }
    requires mask { length mask.now ≡ frame.height * frame.width }
    ensures { IsRaised frame (level_numbered P.level mask.now) (level_numbered P.level samples.old) (level_numbered P.level samples.new) }
{
    for done in 0..frame.height {
        let y = frame.height - 1 - done;
        lift(samples, mask, frame, y, below(frame, y));
        run_left(samples, mask, frame, y);
    }
}

/// Raises all samples by a pair of sweeps, the first or where many places would raise one still.
fn sweep_again<P: Pixel>(samples: &mut [P], mask: &[P], frame: Frame, first: bool)
    requires size { length samples.old ≡ frame.height * frame.width }
    requires mask { length mask.now ≡ frame.height * frame.width }
    ensures { IsRaised frame (level_numbered P.level mask.now) (level_numbered P.level samples.old) (level_numbered P.level samples.new) }
{
    if first || many_wait(samples, mask, frame) {
        sweep_down(samples, mask, frame);
        sweep_up(samples, mask, frame);
    }
}

/// Raises all samples by pairs of sweeps, until few places would raise one still.
pub(crate) fn sweep_all<P: Pixel>(samples: &mut [P], mask: &[P], frame: Frame)
    requires size { length samples.old ≡ frame.height * frame.width }
    requires mask { length mask.now ≡ frame.height * frame.width }
    ensures { IsRaised frame (level_numbered P.level mask.now) (level_numbered P.level samples.old) (level_numbered P.level samples.new) }
{
    for pair in 0..PAIRS {
        sweep_again(samples, mask, frame, pair == 0);
    }
}
