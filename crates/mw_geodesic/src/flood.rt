//! Reconstruction by two sweeps and a queue (Vincent's hybrid), under any element.

ghost use Rattle.std.specs.Prelude.{◌≡◌, ◌<◌, ◌≤◌, IfOk, OnOk, false};
ghost use Rattle.mw_model.specs.Pictures.{sample, IsPicture};
ghost use Rattle.mw_model.specs.Laws.{SameShape};
ghost use Rattle.mw_geodesic.specs.Geodesics.{reconstruction, meet};
ghost use Rattle.mw_geodesic.specs.Floods.{OfferMade, AllWait, HasNothing, HasNothingBy, QueuedIfNeeded, Gained, HasGrown};

use crate::canvas::Canvas;
use crate::neighbours::{Place, ahead, behind};
use mw_model::{NoMemory, Offset};
use mw_reference::{ReferenceImage, minus};
use std::alloc::Global;
use std::collections::VecDeque;

/// The marker, cut to the mask: what is left of it where what is over the mask is taken away.
fn meet(
    alloc: Global,
    marker: &ReferenceImage,
    mask: &ReferenceImage,
) -> Result<ReferenceImage, NoMemory>
    ensures { IfOk result (λ r. r ≡ meet marker.now mask.now) }
{
    let over = minus(alloc, marker, mask)?;
    minus(alloc, marker, &over)
}

/// Raises one sample to what stands where the offset leads, within the mask.
fn gain_by(canvas: &mut Canvas, mask: &ReferenceImage, p: Place, b: Offset)
    requires picture { IsPicture canvas.old }
    requires column { p.x < canvas.old.width }
    requires row { p.y < canvas.old.height }
    ensures { Gained mask.now b p canvas.old canvas.new }
{
    let Some(q) = ahead(canvas.width(), canvas.height(), p, b) else {
        return;
    };
    let s = canvas.sample(q.x, q.y).min(mask.sample(p.x, p.y));
    if canvas.sample(p.x, p.y) < s {
        canvas.set(p.x, p.y, s);
    }
}

/// Raises one sample to what the element lets it see, within the mask.
fn gain(canvas: &mut Canvas, mask: &ReferenceImage, element: &[Offset], p: Place)
    requires picture { IsPicture canvas.old }
    requires column { p.x < canvas.old.width }
    requires row { p.y < canvas.old.height }
    ensures { HasGrown element.now mask.now canvas.old canvas.new }
{
    for i in 0..element.len() {
        gain_by(canvas, mask, p, element[i]);
    }
}

/// Raises each sample, from the top left to the bottom right.
fn sweep_down(canvas: &mut Canvas, mask: &ReferenceImage, element: &[Offset])
    requires { IsPicture canvas.old }
    ensures { HasGrown element.now mask.now canvas.old canvas.new }
{
    let width = canvas.width();
    let height = canvas.height();
    for y in 0..height {
        for x in 0..width {
            gain(canvas, mask, element, Place { x, y });
        }
    }
}

/// Raises each sample, from the bottom right to the top left.
fn sweep_up(canvas: &mut Canvas, mask: &ReferenceImage, element: &[Offset])
    requires { IsPicture canvas.old }
    ensures { HasGrown element.now mask.now canvas.old canvas.new }
{
    let width = canvas.width();
    let height = canvas.height();
    for row in 0..height {
        for column in 0..width {
            let x = width - 1 - column;
            let y = height - 1 - row;
            gain(canvas, mask, element, Place { x, y });
        }
    }
}

/// Whether a place has something to offer by an offset.
fn can_offer_by(canvas: &Canvas, mask: &ReferenceImage, q: Place, b: Offset) -> bool
    ensures { result ≡ false → HasNothingBy b mask.now canvas.now q.x q.y }
{
    let Some(p) = behind(canvas.width(), canvas.height(), q, b) else {
        return false;
    };
    canvas.sample(p.x, p.y) < canvas.sample(q.x, q.y).min(mask.sample(p.x, p.y))
}

/// Whether a place has something to offer to one behind it.
fn can_offer(canvas: &Canvas, mask: &ReferenceImage, element: &[Offset], q: Place) -> bool
    ensures { result ≡ false → HasNothing element.now mask.now canvas.now q.x q.y }
{
    for i in 0..element.len() {
        if can_offer_by(canvas, mask, q, element[i]) {
            return true;
        }
    }
    false
}

/// Puts a place into the queue if it has something to offer.
fn wait_if_needed(
    queue: &mut VecDeque<Place>,
    canvas: &Canvas,
    mask: &ReferenceImage,
    element: &[Offset],
    q: Place,
) -> Result<(), NoMemory>
    ensures { OnOk result (QueuedIfNeeded (HasNothing element.now mask.now canvas.now q.x q.y) q queue.old.items queue.new.items) }
{
    if can_offer(canvas, mask, element, q) {
        queue.push_back(q)?;
    }
    Ok(())
}

/// The places that have something to offer.
fn waiting(
    alloc: Global,
    canvas: &Canvas,
    mask: &ReferenceImage,
    element: &[Offset],
) -> Result<VecDeque<Place>, NoMemory>
    ensures { IfOk result (λ r. AllWait element.now mask.now canvas.now r.items) }
{
    let width = canvas.width();
    let height = canvas.height();
    let mut queue = VecDeque::new(alloc);
    for y in 0..height {
        for x in 0..width {
            wait_if_needed(&mut queue, canvas, mask, element, Place { x, y })?;
        }
    }
    Ok(queue)
}

/// What a place offers to the one behind it.
fn offer(
    canvas: &mut Canvas,
    queue: &mut VecDeque<Place>,
    mask: &ReferenceImage,
    q: Place,
    b: Offset,
) -> Result<(), NoMemory>
    requires bounded { sample canvas.old q.x q.y ≤ canvas.old.maxval }
    ensures { OnOk result (OfferMade mask.now b q canvas.old queue.old.items canvas.new queue.new.items) }
{
    let Some(p) = behind(canvas.width(), canvas.height(), q, b) else {
        return Ok(());
    };
    let s = canvas.sample(q.x, q.y).min(mask.sample(p.x, p.y));
    if canvas.sample(p.x, p.y) < s {
        canvas.set(p.x, p.y, s);
        queue.push_back(p)?;
    }
    Ok(())
}

/// The marker, cut to the mask, dilated within the mask until nothing changes.
pub fn reconstruction(
    alloc: Global,
    marker: &ReferenceImage,
    mask: &ReferenceImage,
    element: &[Offset],
) -> Result<ReferenceImage, NoMemory>
    requires { SameShape marker.now mask.now }
    ensures { IfOk result (λ r. r ≡ reconstruction element.now mask.now marker.now) }
{
    let first = meet(alloc, marker, mask)?;
    let mut canvas = Canvas::of_image(alloc, &first)?;
    sweep_down(&mut canvas, mask, element);
    sweep_up(&mut canvas, mask, element);
    let mut queue = waiting(alloc, &canvas, mask, element)?;
    while let Some(q) = queue.pop_front() {
        for i in 0..element.len() {
            offer(&mut canvas, &mut queue, mask, q, element[i])?;
        }
    }
    Ok(canvas.into_image())
}
