//! The flood: places that wait are taken, and offer their sample to their neighbours. Where one is raised to the sample that
//! it is offered, and not to its mask, it lies on a plateau: then its row is raised as far as that goes, and offers its sample
//! as one stretch.

ghost use Rattle.std.specs.Prelude.{◌≡◌, ◌⊎◌, ◌+◌, ◌*◌, ◌<◌, ◌≤◌, length, true};
ghost use Rattle.mw_geodesic_levels.specs.Levels.{level_numbered, IsNearby, IsRaised, IsFlooded};

use crate::batches::marks_of_batch;
use crate::frame::{Frame, Place};
use crate::near::reach;
use crate::plateaus::wait;
use crate::queue::{Batch, LevelQueue, PLACES, Stretch};
use crate::samples::{at, is_below, lesser, put};
use mw_pixel::Pixel;

/// What a place offers to one near it: where that has a lower sample, it takes what its mask allows, and waits.
#[inline(always)]
fn offer<P: Pixel>(
    samples: &mut [P],
    queue: &mut LevelQueue,
    mask: &[P],
    frame: Frame,
    q: Place,
    p: Place,
)
    requires size { length samples.old ≡ frame.height * frame.width }
    requires mask { length mask.now ≡ frame.height * frame.width }
    requires column { q.x < frame.width }
    requires row { q.y < frame.height }
    requires other_column { p.x < frame.width }
    requires other_row { p.y < frame.height }
    requires near { IsNearby frame.corners p.x p.y q.x q.y }
    ensures { IsFlooded frame (level_numbered P.level mask.now) (level_numbered P.level samples.old) queue.old (level_numbered P.level samples.new) queue.new }
{
    let i = frame.number(p.x, p.y);
    let offered = at(samples, frame.number(q.x, q.y));
    // the mask is read where it counts alone
    if is_below(at(samples, i), offered) {
        let s = lesser(offered, at(mask, i));
        if is_below(at(samples, i), s) {
            put(samples, i, s);
            wait(samples, queue, mask, frame, p, is_below(s, offered));
        }
    }
}

/// What a place offers to the one before it in its row.
#[inline(always)]
fn offer_left<P: Pixel>(
    samples: &mut [P],
    queue: &mut LevelQueue,
    mask: &[P],
    frame: Frame,
    q: Place,
)
    requires size { length samples.old ≡ frame.height * frame.width }
    requires mask { length mask.now ≡ frame.height * frame.width }
    requires column { q.x < frame.width }
    requires row { q.y < frame.height }
    ensures { IsFlooded frame (level_numbered P.level mask.now) (level_numbered P.level samples.old) queue.old (level_numbered P.level samples.new) queue.new }
{
    if q.x > 0 {
        offer(samples, queue, mask, frame, q, Place { x: q.x - 1, y: q.y });
    }
}

/// What a place offers to the one behind it in its row.
#[inline(always)]
fn offer_right<P: Pixel>(
    samples: &mut [P],
    queue: &mut LevelQueue,
    mask: &[P],
    frame: Frame,
    q: Place,
)
    requires size { length samples.old ≡ frame.height * frame.width }
    requires mask { length mask.now ≡ frame.height * frame.width }
    requires column { q.x < frame.width }
    requires row { q.y < frame.height }
    ensures { IsFlooded frame (level_numbered P.level mask.now) (level_numbered P.level samples.old) queue.old (level_numbered P.level samples.new) queue.new }
{
    if q.x + 1 < frame.width {
        offer(samples, queue, mask, frame, q, Place { x: q.x + 1, y: q.y });
    }
}

/// What a stretch offers to its neighbours in row v, which is another than its own.
#[inline(always)]
fn offer_along<P: Pixel>(
    samples: &mut [P],
    queue: &mut LevelQueue,
    mask: &[P],
    frame: Frame,
    stretch: Stretch,
    v: u32,
)
    requires size { length samples.old ≡ frame.height * frame.width }
    requires mask { length mask.now ≡ frame.height * frame.width }
    requires row { stretch.y < frame.height }
    requires first { stretch.from ≤ stretch.to }
    requires last { stretch.to < frame.width }
    requires other { v < frame.height }
    requires down { v ≤ stretch.y + 1 }
    requires up { stretch.y ≤ v + 1 }
    ensures { IsFlooded frame (level_numbered P.level mask.now) (level_numbered P.level samples.old) queue.old (level_numbered P.level samples.new) queue.new }
{
    let far = reach(frame, v, stretch.y);
    let first = stretch.from.saturating_sub(far);
    let last = (stretch.to + far).min(frame.width - 1);
    for x in first..last + 1 {
        let u = x.max(stretch.from).min(stretch.to);
        let q = Place { x: u, y: stretch.y };
        offer(samples, queue, mask, frame, q, Place { x, y: v });
    }
}

/// What a stretch offers to its neighbours in the row above it.
#[inline(always)]
fn offer_above<P: Pixel>(
    samples: &mut [P],
    queue: &mut LevelQueue,
    mask: &[P],
    frame: Frame,
    stretch: Stretch,
)
    requires size { length samples.old ≡ frame.height * frame.width }
    requires mask { length mask.now ≡ frame.height * frame.width }
    requires row { stretch.y < frame.height }
    requires first { stretch.from ≤ stretch.to }
    requires last { stretch.to < frame.width }
    ensures { IsFlooded frame (level_numbered P.level mask.now) (level_numbered P.level samples.old) queue.old (level_numbered P.level samples.new) queue.new }
{
    if stretch.y > 0 {
        offer_along(samples, queue, mask, frame, stretch, stretch.y - 1);
    }
}

/// What a stretch offers to its neighbours in the row below it.
#[inline(always)]
fn offer_below<P: Pixel>(
    samples: &mut [P],
    queue: &mut LevelQueue,
    mask: &[P],
    frame: Frame,
    stretch: Stretch,
)
    requires size { length samples.old ≡ frame.height * frame.width }
    requires mask { length mask.now ≡ frame.height * frame.width }
    requires row { stretch.y < frame.height }
    requires first { stretch.from ≤ stretch.to }
    requires last { stretch.to < frame.width }
    ensures { IsFlooded frame (level_numbered P.level mask.now) (level_numbered P.level samples.old) queue.old (level_numbered P.level samples.new) queue.new }
{
    if stretch.y + 1 < frame.height {
        offer_along(samples, queue, mask, frame, stretch, stretch.y + 1);
    }
}

/// What a stretch offers to all its neighbours.
#[inline(always)]
fn offer_around<P: Pixel>(
    samples: &mut [P],
    queue: &mut LevelQueue,
    mask: &[P],
    frame: Frame,
    stretch: Stretch,
)
    requires size { length samples.old ≡ frame.height * frame.width }
    requires mask { length mask.now ≡ frame.height * frame.width }
    requires row { stretch.y < frame.height }
    requires first { stretch.from ≤ stretch.to }
    requires last { stretch.to < frame.width }
    ensures { IsFlooded frame (level_numbered P.level mask.now) (level_numbered P.level samples.old) queue.old (level_numbered P.level samples.new) queue.new }
{
    let y = stretch.y;
    offer_left(samples, queue, mask, frame, Place { x: stretch.from, y });
    offer_right(samples, queue, mask, frame, Place { x: stretch.to, y });
    offer_above(samples, queue, mask, frame, stretch);
    offer_below(samples, queue, mask, frame, stretch);
}

/// What a stretch that was taken offers.
#[inline(always)]
fn offer_stretch<P: Pixel>(
    samples: &mut [P],
    queue: &mut LevelQueue,
    mask: &[P],
    frame: Frame,
    stretch: Stretch,
)
    requires size { length samples.old ≡ frame.height * frame.width }
    requires mask { length mask.now ≡ frame.height * frame.width }
    ensures { IsFlooded frame (level_numbered P.level mask.now) (level_numbered P.level samples.old) queue.old (level_numbered P.level samples.new) queue.new }
{
    // every stretch that waits is one of the frame
    if stretch.y >= frame.height || stretch.to >= frame.width || stretch.from > stretch.to {
        return;
    }
    offer_around(samples, queue, mask, frame, stretch);
}

/// Takes stretches until none waits.
fn flood_plateaus<P: Pixel>(samples: &mut [P], queue: &mut LevelQueue, mask: &[P], frame: Frame)
    requires size { length samples.old ≡ frame.height * frame.width }
    requires mask { length mask.now ≡ frame.height * frame.width }
    ensures { IsFlooded frame (level_numbered P.level mask.now) (level_numbered P.level samples.old) queue.old (level_numbered P.level samples.new) queue.new }
{
    while let Some(stretch) = queue.pop_stretch() {
        offer_stretch(samples, queue, mask, frame, stretch);
    }
}

/// What a place with a number offers to all its neighbours.
#[inline(always)]
fn offer_place<P: Pixel>(
    samples: &mut [P],
    queue: &mut LevelQueue,
    mask: &[P],
    frame: Frame,
    place: u32,
)
    requires size { length samples.old ≡ frame.height * frame.width }
    requires mask { length mask.now ≡ frame.height * frame.width }
    ensures { IsFlooded frame (level_numbered P.level mask.now) (level_numbered P.level samples.old) queue.old (level_numbered P.level samples.new) queue.new }
{
    // every place that waits is one of the frame
    if place as usize >= samples.len() {
        return;
    }
    let q = frame.place(place);
    let stretch = Stretch {
        y: q.y,
        from: q.x,
        to: q.x,
    };
    offer_around(samples, queue, mask, frame, stretch);
}

/// What a place offers, if it is marked.
#[inline(always)]
fn offer_marked<P: Pixel>(
    samples: &mut [P],
    queue: &mut LevelQueue,
    mask: &[P],
    frame: Frame,
    place: u32,
    marked: bool,
)
    requires size { length samples.old ≡ frame.height * frame.width }
    requires mask { length mask.now ≡ frame.height * frame.width }
    ensures { IsFlooded frame (level_numbered P.level mask.now) (level_numbered P.level samples.old) queue.old (level_numbered P.level samples.new) queue.new }
{
    if marked {
        offer_place(samples, queue, mask, frame, place);
    }
}

/// What the marked places of a batch offer.
fn offer_batch<P: Pixel>(
    samples: &mut [P],
    queue: &mut LevelQueue,
    mask: &[P],
    frame: Frame,
    batch: &Batch,
)
    requires size { length samples.old ≡ frame.height * frame.width }
    requires mask { length mask.now ≡ frame.height * frame.width }
    ensures { IsFlooded frame (level_numbered P.level mask.now) (level_numbered P.level samples.old) queue.old (level_numbered P.level samples.new) queue.new }
{
    let marks = marks_of_batch(samples, mask, frame, batch);
    for k in 0..PLACES {
        offer_marked(samples, queue, mask, frame, batch.places[k], marks[k]);
    }
}

/// What the places of a batch offer, and all the stretches that wait for it.
fn flood_batch<P: Pixel>(
    samples: &mut [P],
    queue: &mut LevelQueue,
    mask: &[P],
    frame: Frame,
    batch: &Batch,
)
    requires size { length samples.old ≡ frame.height * frame.width }
    requires mask { length mask.now ≡ frame.height * frame.width }
    ensures { IsFlooded frame (level_numbered P.level mask.now) (level_numbered P.level samples.old) queue.old (level_numbered P.level samples.new) queue.new }
{
    offer_batch(samples, queue, mask, frame, batch);
    flood_plateaus(samples, queue, mask, frame);
}

/// Takes places until none waits.
pub(crate) fn flood<P: Pixel>(samples: &mut [P], queue: &mut LevelQueue, mask: &[P], frame: Frame)
    requires size { length samples.old ≡ frame.height * frame.width }
    requires mask { length mask.now ≡ frame.height * frame.width }
    ensures { IsRaised frame (level_numbered P.level mask.now) (level_numbered P.level samples.old) (level_numbered P.level samples.new) }
{
    while let Some(batch) = queue.pop() {
        flood_batch(samples, queue, mask, frame, &batch);
    }
}
