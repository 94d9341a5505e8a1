//! Labels of the connected components of a set, by floods from each place that has none.

ghost use Rattle.std.specs.Prelude.{◌≡◌, ◌≢◌, ℕ, ◌*◌, ◌<◌, ◌≤◌, ◌+◌, ◌^◌, ◌-◌, ◌==◌, if◌then◌else◌, slice_index, IfOk, OnOk, length};
ghost use Rattle.mw_model.specs.Pictures.{sample, IsSet};
ghost use Rattle.mw_geodesic.specs.Labels.{AreAreas, IsLabelling, label_at};
ghost use Rattle.mw_geodesic.specs.Markings.{Marked, PartlyLabelled, Visited};
ghost use Rattle.mw_geodesic.specs.Neighbours.{IsPlace, IsSymmetric};

use crate::neighbours::{Place, behind};
use mw_model::{NoMemory, Offset};
use mw_reference::ReferenceImage;
use std::alloc::Global;
use std::collections::VecDeque;

/// What a place marks by an offset.
fn mark_by(
    labels: &mut [u32],
    queue: &mut VecDeque<Place>,
    set: &ReferenceImage,
    q: Place,
    b: Offset,
    n: u32,
) -> Result<(), NoMemory>
    requires { length labels.old ≡ set.now.height * set.now.width }
    ensures { OnOk result (Marked set.now b q n labels.old queue.old.items labels.new queue.new.items) }
{
    let Some(p) = behind(set.width(), set.height(), q, b) else {
        return Ok(());
    };
    if set.sample(p.x, p.y) != 1 {
        return Ok(());
    }
    let i = p.y as usize * set.width() as usize + p.x as usize;
    if labels[i] == 0 {
        labels[i] = n;
        queue.push_back(p)?;
    }
    Ok(())
}

/// Gives a label to the component of a place.
fn mark_component(
    alloc: Global,
    labels: &mut [u32],
    set: &ReferenceImage,
    element: &[Offset],
    seed: Place,
    count: u32,
) -> Result<(), NoMemory>
    requires symmetric { IsSymmetric element.now }
    requires set { IsSet set.now }
    requires partly { PartlyLabelled element.now set.now count labels.old }
    requires fits { count + 1 < 2 ^ 32 }
    requires place { IsPlace set.now seed.x seed.y }
    requires in_set { sample set.now seed.x seed.y ≡ 1 }
    requires free { label_at set.now labels.old seed.x seed.y ≡ 0 }
    ensures partly { OnOk result (PartlyLabelled element.now set.now (count + 1) labels.new) }
    ensures kept { OnOk result ((u v : ℕ) → IsPlace set.now u v → label_at set.now labels.old u v ≢ 0 → label_at set.now labels.new u v ≡ label_at set.now labels.old u v) }
    ensures seed { OnOk result (label_at set.now labels.new seed.x seed.y ≡ count + 1) }
{
    let n = count + 1;
    let at = seed.y as usize * set.width() as usize + seed.x as usize;
    labels[at] = n;
    let mut queue = VecDeque::new(alloc);
    queue.push_back(seed)?;
    while let Some(q) = queue.pop_front() {
        for i in 0..element.len() {
            mark_by(labels, &mut queue, set, q, element[i], n)?;
        }
    }
    Ok(())
}

/// Gives a label to the component of a place, if that is in the set and has none. The answer is how many there are now.
fn visit(
    alloc: Global,
    labels: &mut [u32],
    set: &ReferenceImage,
    element: &[Offset],
    p: Place,
    count: u32,
) -> Result<u32, NoMemory>
    requires symmetric { IsSymmetric element.now }
    requires set { IsSet set.now }
    requires partly { PartlyLabelled element.now set.now count labels.old }
    requires fits { count + 1 < 2 ^ 32 }
    requires place { IsPlace set.now p.x p.y }
    ensures { IfOk result (λ n. Visited element.now set.now p.x p.y count labels.old n labels.new) }
{
    if set.sample(p.x, p.y) != 1 {
        return Ok(count);
    }
    let i = p.y as usize * set.width() as usize + p.x as usize;
    if labels[i] != 0 {
        return Ok(count);
    }
    mark_component(alloc, labels, set, element, p, count)?;
    Ok(count + 1)
}

/// The labels of a set, by rows from the top, and how many there are.
#[derive(Debug, Drop)]
pub struct Labels {
    pub count: u32,
    pub labels: Vec<u32>,
}

/// Labels the components of a set, in places that are all 0. The answer is how many there are.
fn scan(
    alloc: Global,
    labels: &mut [u32],
    set: &ReferenceImage,
    element: &[Offset],
) -> Result<u32, NoMemory>
    requires symmetric { IsSymmetric element.now }
    requires set { IsSet set.now }
    requires size { length labels.old ≡ set.now.height * set.now.width }
    requires free { (i : ℕ) → slice_index labels.old i ≡ 0 }
    ensures { IfOk result (λ n. IsLabelling element.now set.now n labels.new) }
{
    let width = set.width();
    let height = set.height();
    let mut count = 0;
    for y in 0..height {
        for x in 0..width {
            count = visit(alloc, labels, set, element, Place { x, y }, count)?;
        }
    }
    Ok(count)
}

/// The labels of the components of a set.
pub fn labelled(alloc: Global, set: &ReferenceImage, element: &[Offset]) -> Result<Labels, NoMemory>
    requires symmetric { IsSymmetric element.now }
    requires set { IsSet set.now }
    ensures { IfOk result (λ r. IsLabelling element.now set.now r.count r.labels.items) }
{
    let size = set.height() as usize * set.width() as usize;
    let mut labels = vec![in alloc; 0u32; size]?;
    let count = scan(alloc, &mut labels, set, element)?;
    Ok(Labels { count, labels })
}

/// Counts one more place of a label.
fn count_one(areas: &mut [u32], label: u32)
    requires { (k : ℕ) → slice_index areas.old k < 2 ^ 32 - 1 }
    ensures size { length areas.new ≡ length areas.old }
    ensures each { (k : ℕ) → k < length areas.old → slice_index areas.new k ≡ slice_index areas.old k + (if label == k + 1 then 1 else 0) }
{
    if label == 0 || label as usize > areas.len() {
        return;
    }
    let k = label as usize - 1;
    areas[k] += 1;
}

/// How many places each label has.
pub fn areas(alloc: Global, labels: &[u32], count: u32) -> Result<Vec<u32>, NoMemory>
    requires { length labels.now < 2 ^ 32 }
    ensures { IfOk result (λ r. AreAreas labels.now count r.items) }
{
    let mut areas = vec![in alloc; 0u32; count as usize]?;
    for i in 0..labels.len() {
        count_one(&mut areas, labels[i]);
    }
    Ok(areas)
}
