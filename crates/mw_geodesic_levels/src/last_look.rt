//! The last look over all places. Where it finds one that can be raised, that is raised, and sweeps and the queue follow,
//! until it finds none. There is one only where places were left out of the queue for want of room.

ghost use Rattle.std.specs.Prelude.{◌≡◌, ℕ, ◌+◌, ◌*◌, ◌<◌, ◌≤◌, length, false, IsNone, IfSome};
ghost use Rattle.mw_geodesic_levels.specs.Levels.{level_numbered, IsStillTo, IsStillBy, IsStill, IsRaised, CanRise};

use crate::flood::flood;
use crate::frame::{Frame, Place};
use crate::near::{above, below, highest, reach};
use crate::queue::LevelQueue;
use crate::samples::{at, is_below, lesser, put};
use crate::sweeps::sweep_all;
use crate::waiting::fill;
use mw_pixel::Pixel;

/// Whether the place in column x of row y would be raised by that in column u of row v.
#[inline(always)]
fn may_rise<P: Pixel>(samples: &[P], mask: &[P], frame: Frame, p: Place, q: Place) -> bool
    requires size { length samples.now ≡ frame.height * frame.width }
    requires mask { length mask.now ≡ frame.height * frame.width }
    requires column { p.x < frame.width }
    requires row { p.y < frame.height }
    requires other_column { q.x < frame.width }
    requires other_row { q.y < frame.height }
    ensures { result ≡ false → IsStillTo frame (level_numbered P.level mask.now) (level_numbered P.level samples.now) p.x p.y q.x q.y }
{
    let i = frame.number(p.x, p.y);
    let s = at(samples, frame.number(q.x, q.y));
    is_below(at(samples, i), lesser(s, at(mask, i)))
}

/// Whether any place of row y would be raised by that of its column in row v.
fn may_rise_straight<P: Pixel>(samples: &[P], mask: &[P], frame: Frame, y: u32, v: u32) -> bool
    requires size { length samples.now ≡ frame.height * frame.width }
    requires mask { length mask.now ≡ frame.height * frame.width }
    requires row { y < frame.height }
    requires other { v < frame.height }
    ensures { result ≡ false → (x : ℕ) → x < frame.width → IsStillTo frame (level_numbered P.level mask.now) (level_numbered P.level samples.now) x y x v }
{
    let mut any = false;
    for x in 0..frame.width {
        any |= may_rise(samples, mask, frame, Place { x, y }, Place { x, y: v });
    }
    any
}

/// Whether any place of row y would be raised by that of the column before in row v.
fn may_rise_from_left<P: Pixel>(samples: &[P], mask: &[P], frame: Frame, y: u32, v: u32) -> bool
    requires size { length samples.now ≡ frame.height * frame.width }
    requires mask { length mask.now ≡ frame.height * frame.width }
    requires row { y < frame.height }
    requires other { v < frame.height }
    ensures { result ≡ false → (u : ℕ) → u + 1 < frame.width → IsStillTo frame (level_numbered P.level mask.now) (level_numbered P.level samples.now) (u + 1) y u v }
{
    let mut any = false;
    for x in 1..frame.width {
        any |= may_rise(
            samples,
            mask,
            frame,
            Place { x, y },
            Place { x: x - 1, y: v },
        );
    }
    any
}

/// Whether any place of row y would be raised by that of the column behind in row v.
fn may_rise_from_right<P: Pixel>(samples: &[P], mask: &[P], frame: Frame, y: u32, v: u32) -> bool
    requires size { length samples.now ≡ frame.height * frame.width }
    requires mask { length mask.now ≡ frame.height * frame.width }
    requires row { y < frame.height }
    requires other { v < frame.height }
    ensures { result ≡ false → (x : ℕ) → x + 1 < frame.width → IsStillTo frame (level_numbered P.level mask.now) (level_numbered P.level samples.now) x y (x + 1) v }
{
    let mut any = false;
    for u in 1..frame.width {
        any |= may_rise(
            samples,
            mask,
            frame,
            Place { x: u - 1, y },
            Place { x: u, y: v },
        );
    }
    any
}

/// Whether any place of row y would be raised by those near it in row v. Each place is looked at without a branch, so
/// that many go at once.
fn may_rise_along<P: Pixel>(samples: &[P], mask: &[P], frame: Frame, y: u32, v: u32) -> bool
    requires size { length samples.now ≡ frame.height * frame.width }
    requires mask { length mask.now ≡ frame.height * frame.width }
    requires row { y < frame.height }
    requires other { v < frame.height }
    ensures { result ≡ false → (x : ℕ) → x < frame.width → IsStillBy frame (level_numbered P.level mask.now) (level_numbered P.level samples.now) x y v }
{
    if may_rise_straight(samples, mask, frame, y, v) {
        return true;
    }
    if reach(frame, y, v) == 0 {
        return false;
    }
    if may_rise_from_left(samples, mask, frame, y, v) {
        return true;
    }
    may_rise_from_right(samples, mask, frame, y, v)
}

/// A place, by its number, and a sample that it can be raised to.
#[derive(Drop)]
pub(crate) struct Rise<P: Pixel> {
    pub number: usize,
    pub sample: P,
}

/// How the place in column x of row y can be raised by those near it in row v, if it can.
#[inline(always)]
fn rise_by<P: Pixel>(
    samples: &[P],
    mask: &[P],
    frame: Frame,
    x: u32,
    y: u32,
    v: u32,
) -> Option<Rise<P>>
    requires size { length samples.now ≡ frame.height * frame.width }
    requires mask { length mask.now ≡ frame.height * frame.width }
    requires column { x < frame.width }
    requires row { y < frame.height }
    requires other { v < frame.height }
    requires down { y ≤ v + 1 }
    requires up { v ≤ y + 1 }
    ensures none { IsNone result → IsStillBy frame (level_numbered P.level mask.now) (level_numbered P.level samples.now) x y v }
    ensures some { IfSome result (λ r. CanRise frame (level_numbered P.level mask.now) (level_numbered P.level samples.now) r.number (P.level r.sample)) }
{
    let number = frame.number(x, y);
    let most = highest(samples, frame, x, v, reach(frame, y, v));
    let sample = lesser(most, at(mask, number));
    if is_below(at(samples, number), sample) {
        return Some(Rise { number, sample });
    }
    None
}

/// The first place of row y that can be raised by those near it in row v.
fn search_along<P: Pixel>(
    samples: &[P],
    mask: &[P],
    frame: Frame,
    y: u32,
    v: u32,
) -> Option<Rise<P>>
    requires size { length samples.now ≡ frame.height * frame.width }
    requires mask { length mask.now ≡ frame.height * frame.width }
    requires row { y < frame.height }
    requires other { v < frame.height }
    requires down { y ≤ v + 1 }
    requires up { v ≤ y + 1 }
    ensures none { IsNone result → (x : ℕ) → x < frame.width → IsStillBy frame (level_numbered P.level mask.now) (level_numbered P.level samples.now) x y v }
    ensures some { IfSome result (λ r. CanRise frame (level_numbered P.level mask.now) (level_numbered P.level samples.now) r.number (P.level r.sample)) }
{
    for x in 0..frame.width {
        if let Some(rise) = rise_by(samples, mask, frame, x, y, v) {
            return Some(rise);
        }
    }
    None
}

/// A place of row y that can be raised by those near it in row v.
fn rise_along<P: Pixel>(samples: &[P], mask: &[P], frame: Frame, y: u32, v: u32) -> Option<Rise<P>>
    requires size { length samples.now ≡ frame.height * frame.width }
    requires mask { length mask.now ≡ frame.height * frame.width }
    requires row { y < frame.height }
    requires other { v < frame.height }
    requires down { y ≤ v + 1 }
    requires up { v ≤ y + 1 }
    ensures none { IsNone result → (x : ℕ) → x < frame.width → IsStillBy frame (level_numbered P.level mask.now) (level_numbered P.level samples.now) x y v }
    ensures some { IfSome result (λ r. CanRise frame (level_numbered P.level mask.now) (level_numbered P.level samples.now) r.number (P.level r.sample)) }
{
    if may_rise_along(samples, mask, frame, y, v) {
        return search_along(samples, mask, frame, y, v);
    }
    None
}

/// A place of row y that can be raised.
fn rise_in_row<P: Pixel>(samples: &[P], mask: &[P], frame: Frame, y: u32) -> Option<Rise<P>>
    requires size { length samples.now ≡ frame.height * frame.width }
    requires mask { length mask.now ≡ frame.height * frame.width }
    requires row { y < frame.height }
    ensures none { IsNone result → (x v : ℕ) → x < frame.width → v < frame.height → IsStillBy frame (level_numbered P.level mask.now) (level_numbered P.level samples.now) x y v }
    ensures some { IfSome result (λ r. CanRise frame (level_numbered P.level mask.now) (level_numbered P.level samples.now) r.number (P.level r.sample)) }
{
    if let Some(by_above) = rise_along(samples, mask, frame, y, above(y)) {
        return Some(by_above);
    }
    if let Some(beside) = rise_along(samples, mask, frame, y, y) {
        return Some(beside);
    }
    rise_along(samples, mask, frame, y, below(frame, y))
}

/// A place that can be raised.
fn first_rise<P: Pixel>(samples: &[P], mask: &[P], frame: Frame) -> Option<Rise<P>>
    requires size { length samples.now ≡ frame.height * frame.width }
    requires mask { length mask.now ≡ frame.height * frame.width }
    ensures none { IsNone result → IsStill frame (level_numbered P.level mask.now) (level_numbered P.level samples.now) }
    ensures some { IfSome result (λ r. CanRise frame (level_numbered P.level mask.now) (level_numbered P.level samples.now) r.number (P.level r.sample)) }
{
    for y in 0..frame.height {
        if let Some(rise) = rise_in_row(samples, mask, frame, y) {
            return Some(rise);
        }
    }
    None
}

/// Raises by sweeps, and then from the places that would raise one still.
pub(crate) fn raise_all<P: Pixel>(
    samples: &mut [P],
    queue: &mut LevelQueue,
    mask: &[P],
    frame: Frame,
)
    requires size { length samples.old ≡ frame.height * frame.width }
    requires mask { length mask.now ≡ frame.height * frame.width }
    ensures { IsRaised frame (level_numbered P.level mask.now) (level_numbered P.level samples.old) (level_numbered P.level samples.new) }
{
    sweep_all(samples, mask, frame);
    fill(queue, samples, mask, frame);
    flood(samples, queue, mask, frame);
}

/// Raises until no place can be raised.
pub(crate) fn settle<P: Pixel>(samples: &mut [P], queue: &mut LevelQueue, mask: &[P], frame: Frame)
    requires size { length samples.old ≡ frame.height * frame.width }
    requires mask { length mask.now ≡ frame.height * frame.width }
    ensures raised { IsRaised frame (level_numbered P.level mask.now) (level_numbered P.level samples.old) (level_numbered P.level samples.new) }
    ensures still { IsStill frame (level_numbered P.level mask.now) (level_numbered P.level samples.new) }
{
    while let Some(rise) = first_rise(samples, mask, frame) {
        put(samples, rise.number, rise.sample);
        raise_all(samples, queue, mask, frame);
    }
}
