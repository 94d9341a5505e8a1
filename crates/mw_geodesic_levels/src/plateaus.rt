//! Plateaus, row by row: how far a row is raised beside a place that was raised, and how that waits.

ghost use Rattle.std.specs.Prelude.{◌≡◌, ◌+◌, ◌*◌, ◌<◌, ◌≤◌, length};
ghost use Rattle.mw_geodesic_levels.specs.Levels.{level_numbered, IsNearby, IsRaised, IsFlooded};

use crate::frame::{Frame, Place};
use crate::queue::{LevelQueue, Stretch};
use crate::samples::{at, is_below, lesser, put};
use mw_pixel::Pixel;

/// Raises the sample of a place to that of one near it, where that is more and the mask is not under it, and tells whether it did.
#[inline(always)]
fn level_with<P: Pixel>(samples: &mut [P], mask: &[P], frame: Frame, q: Place, p: Place) -> bool
    requires size { length samples.old ≡ frame.height * frame.width }
    requires mask { length mask.now ≡ frame.height * frame.width }
    requires column { q.x < frame.width }
    requires row { q.y < frame.height }
    requires other_column { p.x < frame.width }
    requires other_row { p.y < frame.height }
    requires near { IsNearby frame.corners p.x p.y q.x q.y }
    ensures { IsRaised frame (level_numbered P.level mask.now) (level_numbered P.level samples.old) (level_numbered P.level samples.new) }
{
    let i = frame.number(p.x, p.y);
    let offered = at(samples, frame.number(q.x, q.y));
    let s = lesser(offered, at(mask, i));
    if is_below(s, offered) {
        return false;
    }
    if is_below(at(samples, i), s) {
        put(samples, i, s);
        return true;
    }
    false
}

/// Raises a row to the left of a place as far as its plateau goes, and tells to which column.
#[tactic(auto, using(crate::proofs::Raises::raised_on))]
fn spread_left<P: Pixel>(samples: &mut [P], mask: &[P], frame: Frame, p: Place) -> u32
    requires size { length samples.old ≡ frame.height * frame.width }
    requires mask { length mask.now ≡ frame.height * frame.width }
    requires column { p.x < frame.width }
    requires row { p.y < frame.height }
    ensures before { result ≤ p.x }
    ensures raised { IsRaised frame (level_numbered P.level mask.now) (level_numbered P.level samples.old) (level_numbered P.level samples.new) }
{
    let y = p.y;
    for done in 0..p.x {
        let x = p.x - done;
        if !level_with(samples, mask, frame, Place { x, y }, Place { x: x - 1, y }) {
            return x;
        }
    }
    0
}

/// Raises a row to the right of a place as far as its plateau goes, and tells to which column.
#[tactic(auto, using(crate::proofs::Raises::raised_on))]
fn spread_right<P: Pixel>(samples: &mut [P], mask: &[P], frame: Frame, p: Place) -> u32
    requires size { length samples.old ≡ frame.height * frame.width }
    requires mask { length mask.now ≡ frame.height * frame.width }
    requires column { p.x < frame.width }
    requires row { p.y < frame.height }
    ensures behind { p.x ≤ result }
    ensures within { result < frame.width }
    ensures raised { IsRaised frame (level_numbered P.level mask.now) (level_numbered P.level samples.old) (level_numbered P.level samples.new) }
{
    let y = p.y;
    for x in p.x + 1..frame.width {
        if !level_with(samples, mask, frame, Place { x: x - 1, y }, Place { x, y }) {
            return x - 1;
        }
    }
    frame.width - 1
}

/// Raises a row on both sides of a place as far as its plateau goes, and lets that stretch wait.
#[inline(always)]
fn wait_along<P: Pixel>(
    samples: &mut [P],
    queue: &mut LevelQueue,
    mask: &[P],
    frame: Frame,
    p: Place,
)
    requires size { length samples.old ≡ frame.height * frame.width }
    requires mask { length mask.now ≡ frame.height * frame.width }
    requires column { p.x < frame.width }
    requires row { p.y < frame.height }
    ensures { IsFlooded frame (level_numbered P.level mask.now) (level_numbered P.level samples.old) (queue.old + 1) (level_numbered P.level samples.new) queue.new }
{
    let from = spread_left(samples, mask, frame, p);
    let to = spread_right(samples, mask, frame, p);
    queue.push_stretch(Stretch { y: p.y, from, to });
}

/// Lets a place wait at its level.
#[inline(always)]
fn wait_alone<P: Pixel>(samples: &[P], queue: &mut LevelQueue, frame: Frame, p: Place)
    requires size { length samples.now ≡ frame.height * frame.width }
    requires column { p.x < frame.width }
    requires row { p.y < frame.height }
    ensures { queue.new ≤ queue.old + 1 }
{
    let i = frame.number(p.x, p.y);
    queue.push(at(samples, i).value(), i);
}

/// Lets a place wait that was raised: alone, or with what it is part of.
#[inline(always)]
pub(crate) fn wait<P: Pixel>(
    samples: &mut [P],
    queue: &mut LevelQueue,
    mask: &[P],
    frame: Frame,
    p: Place,
    alone: bool,
)
    requires size { length samples.old ≡ frame.height * frame.width }
    requires mask { length mask.now ≡ frame.height * frame.width }
    requires column { p.x < frame.width }
    requires row { p.y < frame.height }
    ensures { IsFlooded frame (level_numbered P.level mask.now) (level_numbered P.level samples.old) (queue.old + 1) (level_numbered P.level samples.new) queue.new }
{
    if alone || queue.has_no_room() {
        wait_alone(samples, queue, frame, p);
        return;
    }
    wait_along(samples, queue, mask, frame, p);
}
