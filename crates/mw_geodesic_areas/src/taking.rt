//! Places are taken by falling levels, and in each level from the last to the first.

ghost use Rattle.std.specs.Prelude.{◌≡◌, ℕ, ◌+◌, ◌*◌, ◌<◌, ◌≤◌, ◌^◌, length, slice_index};
ghost use Rattle.mw_geodesic_levels.specs.Levels.{level_numbered};
ghost use Rattle.mw_geodesic_areas.specs.Problems.{problem};
ghost use Rattle.mw_geodesic_areas.specs.Seen.{level_seen};
ghost use Rattle.mw_geodesic_areas.specs.Forests.{IsParentForest, EachByItself, AreRoots};
ghost use Rattle.mw_geodesic_areas.specs.Chains.{IsLast, AreChained};
ghost use Rattle.mw_geodesic_areas.specs.Classes.{IsBegun, Standing, HasTaken};

use crate::classes::{Task, sample_seen, touch_around};
use mw_geodesic_levels::found::{Place, at, put};
use mw_pixel::Pixel;

/// Makes place p a class of its own.
#[inline(always)]
fn begin<P: Pixel>(links: &mut [u32], out: &mut [P], p: u32, sample: P, least: u32)
    requires links { p < length links.old }
    requires out { p < length out.old }
    ensures { IsBegun least (P.level sample) p (slice_index links.old) (level_numbered P.level out.old) (slice_index links.new) (level_numbered P.level out.new) }
{
    links[p as usize] = 1;
    if least <= 1 {
        put(out, p as usize, sample);
    }
}

/// Takes place p. The answer is one more than the number of the next place of its level, or 0.
fn take<P: Pixel>(
    parent: &mut [u32],
    links: &mut [u32],
    out: &mut [P],
    task: &Task<'_, P>,
    p: u32,
) -> u32
    requires forest { IsParentForest parent.old }
    requires size { length parent.old ≡ task.now.frame.height * task.now.frame.width }
    requires links { length links.old ≡ task.now.frame.height * task.now.frame.width }
    requires out { length out.old ≡ task.now.frame.height * task.now.frame.width }
    requires samples { length task.now.samples.now ≡ task.now.frame.height * task.now.frame.width }
    requires fits { task.now.maxval ≤ P.top_level }
    requires few { task.now.frame.height * task.now.frame.width < 2 ^ 32 }
    requires within { p < task.now.frame.height * task.now.frame.width }
    ensures forest { IsParentForest parent.new }
    ensures taken { 1 ≤ level_seen P.level task.now.turned task.now.maxval task.now.samples.now p
        → Standing (problem task.now.frame (level_seen P.level task.now.turned task.now.maxval task.now.samples.now) task.now.least) (level_seen P.level task.now.turned task.now.maxval task.now.samples.now p) (p + 1) parent.old (slice_index links.old) (level_numbered P.level out.old)
        → HasTaken (problem task.now.frame (level_seen P.level task.now.turned task.now.maxval task.now.samples.now) task.now.least) p result parent.new (slice_index links.new) (level_numbered P.level out.new) }
{
    let next = links[p as usize];
    let sample = sample_seen(task, p as usize);
    begin(links, out, p, sample, task.least);
    let place = Place {
        x: p % task.frame.width,
        y: p / task.frame.width,
    };
    touch_around(parent, links, out, task, place);
    next
}

/// Takes the places of a level. The head is one more than the number of the last of them, or 0.
fn take_level<P: Pixel>(
    parent: &mut [u32],
    links: &mut [u32],
    out: &mut [P],
    task: &Task<'_, P>,
    level: u32,
    head: u32,
)
    requires forest { IsParentForest parent.old }
    requires size { length parent.old ≡ task.now.frame.height * task.now.frame.width }
    requires links { length links.old ≡ task.now.frame.height * task.now.frame.width }
    requires out { length out.old ≡ task.now.frame.height * task.now.frame.width }
    requires samples { length task.now.samples.now ≡ task.now.frame.height * task.now.frame.width }
    requires fits { task.now.maxval ≤ P.top_level }
    requires few { task.now.frame.height * task.now.frame.width < 2 ^ 32 }
    requires level { 1 ≤ level }
    requires last { IsLast (level_seen P.level task.now.turned task.now.maxval task.now.samples.now) level (task.now.frame.height * task.now.frame.width) head }
    requires standing { Standing (problem task.now.frame (level_seen P.level task.now.turned task.now.maxval task.now.samples.now) task.now.least) (level + 1) 0 parent.old (slice_index links.old) (level_numbered P.level out.old) }
    ensures forest { IsParentForest parent.new }
    ensures standing { Standing (problem task.now.frame (level_seen P.level task.now.turned task.now.maxval task.now.samples.now) task.now.least) level 0 parent.new (slice_index links.new) (level_numbered P.level out.new) }
{
    let mut next = head;
    while next > 0 {
        next = take(parent, links, out, task, next - 1);
    }
}

/// Takes the places of all levels but 0.
pub(crate) fn take_all<P: Pixel>(
    parent: &mut [u32],
    links: &mut [u32],
    out: &mut [P],
    task: &Task<'_, P>,
    heads: &[u32],
)
    requires alone { EachByItself parent.old }
    requires size { length parent.old ≡ task.now.frame.height * task.now.frame.width }
    requires links { length links.old ≡ task.now.frame.height * task.now.frame.width }
    requires out { length out.old ≡ task.now.frame.height * task.now.frame.width }
    requires samples { length task.now.samples.now ≡ task.now.frame.height * task.now.frame.width }
    requires fits { task.now.maxval ≤ P.top_level }
    requires few { task.now.frame.height * task.now.frame.width < 2 ^ 32 }
    requires blank { (i : ℕ) → i < length out.old → level_numbered P.level out.old i ≡ 0 }
    requires heads { length heads.now ≡ P.top_level + 1 }
    requires chained { AreChained (level_seen P.level task.now.turned task.now.maxval task.now.samples.now) P.top_level (task.now.frame.height * task.now.frame.width) (slice_index heads.now) (slice_index links.old) }
    ensures forest { IsParentForest parent.new }
    ensures standing { Standing (problem task.now.frame (level_seen P.level task.now.turned task.now.maxval task.now.samples.now) task.now.least) 1 0 parent.new (slice_index links.new) (level_numbered P.level out.new) }
{
    let mut level = P::TOP.value();
    while level > 0 {
        take_level(
            parent,
            links,
            out,
            task,
            u32::from(level),
            heads[usize::from(level)],
        );
        level -= 1;
    }
}

/// Writes over the sample of each place that of its root.
pub(crate) fn resolve<P: Pixel>(parent: &[u32], out: &mut [P])
    requires forest { IsParentForest parent.now }
    requires size { length parent.now ≡ length out.old }
    ensures { (c : ℕ → ℕ) → AreRoots parent.now c → (i : ℕ) → i < length out.old → level_numbered P.level out.new i ≡ level_numbered P.level out.old (c i) }
{
    for i in 0..parent.len() {
        let sample = at(out, parent[i] as usize);
        put(out, i, sample);
    }
}
