//! Classes of places: their sizes, what becomes of two that touch, and what a place joins that is taken.

ghost use Rattle.std.specs.Prelude.{◌≡◌, ◌↔◌, ◌+◌, ◌*◌, ◌<◌, ◌≤◌, ◌^◌, length, slice_index, set, true, false, IsTrue};
ghost use Rattle.mw_geodesic_levels.specs.Levels.{level_numbered, IsPut};
ghost use Rattle.mw_geodesic_areas.specs.Problems.{problem};
ghost use Rattle.mw_geodesic_areas.specs.Seen.{level_seen};
ghost use Rattle.mw_geodesic_areas.specs.Forests.{IsParentForest};
ghost use Rattle.mw_geodesic_areas.specs.Classes.{WasTaken, HasItsLevel, IsLargeBy, IsSmallBy, Meets, MeetsRow, MeetsAll};

use crate::forest::find;
use mw_geodesic_levels::found::{Frame, Place, above, at, below, put, reach};
use mw_pixel::Pixel;

/// The samples of an image, its sides, and from how many places on a component is large. Of an image that is turned over each
/// level is looked at as what the maxval is over it, so that no complement has to be kept.
#[derive(Drop)]
pub(crate) struct Task<'a, P: Pixel> {
    pub samples: &'a [P],
    pub frame: Frame,
    pub least: u32,
    pub turned: bool,
    pub maxval: u16,
}

/// The sample of a level.
#[inline(always)]
fn sample_of<P: Pixel>(level: u16) -> P
    requires { level ≤ P.top_level }
    ensures { P.level result ≡ level }
{
    match P::of(level) {
        Some(sample) => sample,
        None => unreachable!(),
    }
}

/// The sample with a number, as it is looked at.
#[inline(always)]
pub(crate) fn sample_seen<P: Pixel>(task: &Task<'_, P>, i: usize) -> P
    requires inside { i < length task.now.samples.now }
    requires fits { task.now.maxval ≤ P.top_level }
    ensures { P.level result ≡ level_seen P.level task.now.turned task.now.maxval task.now.samples.now i }
{
    let sample = at(task.samples, i);
    if task.turned {
        return sample_of(task.maxval.saturating_sub(sample.value()));
    }
    sample
}

/// Gives a class its level, unless it has one.
#[inline(always)]
fn settle<P: Pixel>(out: &mut [P], r: u32, sample: P)
    requires { r < length out.old }
    ensures { HasItsLevel (P.level sample) r (level_numbered P.level out.old) (level_numbered P.level out.new) }
{
    if at(out, r as usize).value() == 0 {
        put(out, r as usize, sample);
    }
}

/// Whether one of two roots has a level, or their sizes together are large.
#[inline(always)]
fn is_large<P: Pixel>(links: &[u32], out: &[P], r: u32, s: u32, least: u32) -> bool
    requires size { length links.now ≡ length out.now }
    requires first { r < length out.now }
    requires second { s < length out.now }
    ensures yes { result ≡ true → IsLargeBy least r s (slice_index links.now) (level_numbered P.level out.now) }
    ensures no { result ≡ false → IsSmallBy least r s (slice_index links.now) (level_numbered P.level out.now) }
{
    if at(out, r as usize).value() != 0 {
        return true;
    }
    if at(out, s as usize).value() != 0 {
        return true;
    }
    u64::from(links[r as usize]) + u64::from(links[s as usize]) >= u64::from(least)
}

/// Makes root r the parent of root s, with the sizes of both.
#[inline(always)]
fn link(parent: &mut [u32], links: &mut [u32], r: u32, s: u32)
    requires size { length links.old ≡ length parent.old }
    requires first { r < length parent.old }
    requires second { s < length parent.old }
    requires small { slice_index links.old r + slice_index links.old s < 2 ^ 32 }
    ensures parent { parent.new ≡ set parent.old s r }
    ensures size { IsPut (slice_index links.old r + slice_index links.old s) r (slice_index links.old) (slice_index links.new) }
{
    links[r as usize] = links[r as usize] + links[s as usize];
    parent[s as usize] = r;
}

/// What becomes of the classes of two neighbours, of which p is just taken, and q was. Where they are large together, each
/// without a level gets that of p; else they become one.
fn join<P: Pixel>(
    parent: &mut [u32],
    links: &mut [u32],
    out: &mut [P],
    task: &Task<'_, P>,
    p: u32,
    q: u32,
)
    requires forest { IsParentForest parent.old }
    requires size { length parent.old ≡ task.now.frame.height * task.now.frame.width }
    requires links { length links.old ≡ task.now.frame.height * task.now.frame.width }
    requires out { length out.old ≡ task.now.frame.height * task.now.frame.width }
    requires samples { length task.now.samples.now ≡ task.now.frame.height * task.now.frame.width }
    requires fits { task.now.maxval ≤ P.top_level }
    requires first { p < task.now.frame.height * task.now.frame.width }
    requires second { q < task.now.frame.height * task.now.frame.width }
    ensures forest { IsParentForest parent.new }
    ensures met { Meets (problem task.now.frame (level_seen P.level task.now.turned task.now.maxval task.now.samples.now) task.now.least) p q (Unit {0}) parent.old (slice_index links.old) (level_numbered P.level out.old) parent.new (slice_index links.new) (level_numbered P.level out.new) }
{
    let r = find(parent, p);
    let s = find(parent, q);
    if r == s {
        return;
    }
    if is_large(links, out, r, s, task.least) {
        let sample = sample_seen(task, p as usize);
        settle(out, r, sample);
        settle(out, s, sample);
        return;
    }
    if r < s {
        link(parent, links, r, s);
    } else {
        link(parent, links, s, r);
    }
}

/// Whether place q is taken, where p was taken last.
#[inline(always)]
fn is_taken<P: Pixel>(task: &Task<'_, P>, p: u32, q: u32) -> bool
    requires first { p < length task.now.samples.now }
    requires second { q < length task.now.samples.now }
    requires fits { task.now.maxval ≤ P.top_level }
    ensures { IsTrue result ↔ WasTaken (level_seen P.level task.now.turned task.now.maxval task.now.samples.now) (level_seen P.level task.now.turned task.now.maxval task.now.samples.now p) p q }
{
    let here = sample_seen(task, p as usize).value();
    let there = sample_seen(task, q as usize).value();
    if there == here {
        return p <= q;
    }
    here < there
}

/// What becomes of the classes of p, which is just taken, and of a neighbour, if that was taken.
#[inline(always)]
fn touch<P: Pixel>(
    parent: &mut [u32],
    links: &mut [u32],
    out: &mut [P],
    task: &Task<'_, P>,
    p: u32,
    q: u32,
)
    requires forest { IsParentForest parent.old }
    requires size { length parent.old ≡ task.now.frame.height * task.now.frame.width }
    requires links { length links.old ≡ task.now.frame.height * task.now.frame.width }
    requires out { length out.old ≡ task.now.frame.height * task.now.frame.width }
    requires samples { length task.now.samples.now ≡ task.now.frame.height * task.now.frame.width }
    requires fits { task.now.maxval ≤ P.top_level }
    requires first { p < task.now.frame.height * task.now.frame.width }
    requires second { q < task.now.frame.height * task.now.frame.width }
    ensures forest { IsParentForest parent.new }
    ensures met { Meets (problem task.now.frame (level_seen P.level task.now.turned task.now.maxval task.now.samples.now) task.now.least) p q (WasTaken (level_seen P.level task.now.turned task.now.maxval task.now.samples.now) (level_seen P.level task.now.turned task.now.maxval task.now.samples.now p) p q) parent.old (slice_index links.old) (level_numbered P.level out.old) parent.new (slice_index links.new) (level_numbered P.level out.new) }
{
    if is_taken(task, p, q) {
        join(parent, links, out, task, p, q);
    }
}

/// What becomes of the classes of a place, which is just taken, and of those near it in row v.
#[inline(always)]
fn touch_row<P: Pixel>(
    parent: &mut [u32],
    links: &mut [u32],
    out: &mut [P],
    task: &Task<'_, P>,
    place: Place,
    v: u32,
)
    requires forest { IsParentForest parent.old }
    requires size { length parent.old ≡ task.now.frame.height * task.now.frame.width }
    requires links { length links.old ≡ task.now.frame.height * task.now.frame.width }
    requires out { length out.old ≡ task.now.frame.height * task.now.frame.width }
    requires samples { length task.now.samples.now ≡ task.now.frame.height * task.now.frame.width }
    requires fits { task.now.maxval ≤ P.top_level }
    requires few { task.now.frame.height * task.now.frame.width < 2 ^ 32 }
    requires column { place.x < task.now.frame.width }
    requires row { place.y < task.now.frame.height }
    requires other { v < task.now.frame.height }
    requires down { v ≤ place.y + 1 }
    requires up { place.y ≤ v + 1 }
    ensures forest { IsParentForest parent.new }
    ensures met { MeetsRow (problem task.now.frame (level_seen P.level task.now.turned task.now.maxval task.now.samples.now) task.now.least) (place.y * task.now.frame.width + place.x) place.x place.y v parent.old (slice_index links.old) (level_numbered P.level out.old) parent.new (slice_index links.new) (level_numbered P.level out.new) }
{
    let p = task.frame.number(place.x, place.y) as u32;
    let middle = task.frame.number(place.x, v) as u32;
    touch(parent, links, out, task, p, middle);
    let far = reach(task.frame, place.y, v);
    if far == 0 {
        return;
    }
    let left = place.x.saturating_sub(far);
    let right = (place.x + far).min(task.frame.width - 1);
    let first = task.frame.number(left, v) as u32;
    let last = task.frame.number(right, v) as u32;
    touch(parent, links, out, task, p, first);
    touch(parent, links, out, task, p, last);
}

/// What becomes of the classes of a place, which is just taken, and of all near it.
#[inline(always)]
pub(crate) fn touch_around<P: Pixel>(
    parent: &mut [u32],
    links: &mut [u32],
    out: &mut [P],
    task: &Task<'_, P>,
    place: Place,
)
    requires forest { IsParentForest parent.old }
    requires size { length parent.old ≡ task.now.frame.height * task.now.frame.width }
    requires links { length links.old ≡ task.now.frame.height * task.now.frame.width }
    requires out { length out.old ≡ task.now.frame.height * task.now.frame.width }
    requires samples { length task.now.samples.now ≡ task.now.frame.height * task.now.frame.width }
    requires fits { task.now.maxval ≤ P.top_level }
    requires few { task.now.frame.height * task.now.frame.width < 2 ^ 32 }
    requires column { place.x < task.now.frame.width }
    requires row { place.y < task.now.frame.height }
    ensures forest { IsParentForest parent.new }
    ensures met { MeetsAll (problem task.now.frame (level_seen P.level task.now.turned task.now.maxval task.now.samples.now) task.now.least) (place.y * task.now.frame.width + place.x) parent.old (slice_index links.old) (level_numbered P.level out.old) parent.new (slice_index links.new) (level_numbered P.level out.new) }
{
    touch_row(parent, links, out, task, place, above(place.y));
    touch_row(parent, links, out, task, place, place.y);
    touch_row(parent, links, out, task, place, below(task.frame, place.y));
}
