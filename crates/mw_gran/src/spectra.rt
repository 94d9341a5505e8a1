//! Spectra of granulometries, after Matheron: the volumes of the openings by more and more erosions.
//!
//! An erosion goes on from the one before it, and all of them come first (`erosions` says why). Its dilations do not go on,
//! save for full rectangles that hold their origin, whose n dilations are one by a box (`by_boxes`).

ghost use Rattle.std.specs.Prelude.{◌≡◌, ◌+◌, ◌*◌, ◌/◌, ◌<◌, ◌≤◌, ℕ, List, length, IfOk};
ghost use Rattle.std.specs.Arc.{arc_value};
ghost use Rattle.mw_plan.specs.mw_element.Figures.{FillsBox};
ghost use Rattle.mw_model.specs.declared.limits.TheConstants.{SIZE_LIMIT};
ghost use Rattle.mw_model.specs.declared.offsets.Offset.{Offset};
ghost use Rattle.mw_model.specs.declared.offsets.OffsetBox.{OffsetBox};
ghost use Rattle.mw_model.specs.Flat.{dilation, reflected};
ghost use Rattle.mw_model.specs.Iterates.{times, spectrum};
ghost use Rattle.mw_model.specs.Laws.{HoldsOrigin};
ghost use Rattle.mw_model.specs.Pictures.{Picture, IsPicture};
ghost use Rattle.mw_plan.specs.mw_step_task.Meanings.{meaning};
ghost use Rattle.mw_plan.specs.Seen.{source};
ghost use Rattle.mw_plan.specs.Steps.{IsNearBox};
ghost use Rattle.mw_gran.specs.Growing.{ShowsOperator};
ghost use Rattle.mw_gran.specs.Turns.{Slides, StillShown, Tells, TellsSpectrum, TellsVolumes, volume_steps};

use crate::boxes::multiplied;
use crate::eroding::{eroded, erosions};
use crate::growing::add;
use crate::sliding::{SlidingSteps, rectangle_with_origin, sliding_steps};
use mw_model::{NoMemory, OffsetBox};
use mw_plan::element::Element;
use mw_plan::{Plan, Source, Sources, Step, turned};
use std::alloc::Global;
use std::sync::Arc;

/// n dilations, one behind another.
fn dilated(plan: &mut Plan, steps: &SlidingSteps, from: Source, n: u32) -> Result<Source, NoMemory>
    requires few { length plan.old < 65000 }
    requires small { n ≤ SIZE_LIMIT }
    ensures kept { IfOk result (λ _. StillShown plan.old plan.new) }
    ensures grown { (b : List Offset) (count : ℕ) (numbers : Picture → List ℕ) (before : Picture → Picture) → Slides b (meaning steps.now.erode) (meaning steps.now.dilate) → Tells plan.old count numbers → ShowsOperator IsPicture plan.old (source from) before → IfOk result (λ s. Tells plan.new (count + n) numbers × ShowsOperator IsPicture plan.new (source s) (λ f. times n (dilation (reflected b)) (before f))) }
    ensures count { IfOk result (λ _. length plan.new ≡ length plan.old + n) }
{
    let mut grown = from;
    for _done in 0..n {
        grown = add(plan, steps.dilate.share()?, Sources::One(grown))?;
    }
    Ok(grown)
}

/// One turn, behind n others: as many dilations of the next erosion as it has erosions, and their sum.
fn turn(plan: &mut Plan, steps: &SlidingSteps, n: u32) -> Result<(), NoMemory>
    requires few { length plan.old < 64000 }
    requires small { n < SIZE_LIMIT }
    ensures count { IfOk result (λ _. length plan.new ≡ length plan.old + n + 2) }
    ensures tells { (b : List Offset) (depth : ℕ) → Slides b (meaning steps.now.erode) (meaning steps.now.dilate) → n < depth → TellsVolumes b depth n plan.old → IfOk result (λ _. TellsVolumes b depth (n + 1) plan.new) }
{
    let next = eroded((n + 1) as u16);
    let opened = dilated(plan, steps, next, n + 1)?;
    add(plan, Step::Sum, Sources::One(opened))?;
    Ok(())
}

/// The plan of a spectrum by any element.
fn by_turns(alloc: Global, steps: &SlidingSteps, levels: u32) -> Result<Plan, NoMemory>
    requires { levels ≤ SIZE_LIMIT }
    ensures { (b : List Offset) → Slides b (meaning steps.now.erode) (meaning steps.now.dilate) → IfOk result (λ p. Tells p (levels + volume_steps levels) (spectrum b levels)) }
{
    let n = levels as usize;
    let count = 2 * n + n * (n + 1) / 2 + 1;
    let mut plan = erosions(alloc, steps, levels as u16, count)?;
    add(&mut plan, Step::Sum, Sources::One(Source::Input(0)))?;
    for n in 0..levels {
        turn(&mut plan, steps, n)?;
    }
    Ok(plan)
}

/// One turn by boxes, behind n others: the erosion of the image, its dilation, and the sum.
fn box_turn(plan: &mut Plan, offsets: OffsetBox, n: u32) -> Result<(), NoMemory>
    requires few { length plan.old < 65000 }
    requires small { n < SIZE_LIMIT }
    requires near { IsNearBox offsets }
    ensures count { IfOk result (λ _. length plan.new ≡ length plan.old + 3) }
    ensures tells { (b : List Offset) → FillsBox offsets b → HoldsOrigin b → Tells plan.old (3 * n + 1) (spectrum b n) → IfOk result (λ _. Tells plan.new (3 * (n + 1) + 1) (spectrum b (n + 1))) }
{
    let erode = Step::ErodeBox(multiplied(offsets, n + 1));
    let dilate = Step::DilateBox(multiplied(turned(offsets), n + 1));
    let eroded = add(plan, erode, Sources::One(Source::Input(0)))?;
    let opened = add(plan, dilate, Sources::One(eroded))?;
    add(plan, Step::Sum, Sources::One(opened))?;
    Ok(())
}

/// The plan of a spectrum by a full rectangle that holds its origin.
fn by_boxes(alloc: Global, offsets: OffsetBox, levels: u32) -> Result<Plan, NoMemory>
    requires small { levels ≤ SIZE_LIMIT }
    requires near { IsNearBox offsets }
    ensures { (b : List Offset) → FillsBox offsets b → HoldsOrigin b → IfOk result (λ p. Tells p (3 * levels + 1) (spectrum b levels)) }
{
    let mut plan = Plan::with_capacity(alloc, 3 * levels as usize + 1)?;
    add(&mut plan, Step::Sum, Sources::One(Source::Input(0)))?;
    for n in 0..levels {
        box_turn(&mut plan, offsets, n)?;
    }
    Ok(plan)
}

/// The plan of a spectrum: by boxes where the element is a full rectangle that holds its origin, else by turns.
pub(crate) fn spectrum(alloc: Global, element: &Arc<Element>, levels: u32) -> Result<Plan, NoMemory>
    requires { levels ≤ SIZE_LIMIT }
    ensures { IfOk result (TellsSpectrum (arc_value element.now).offsets levels) }
{
    if let Some(offsets) = rectangle_with_origin(element) {
        return by_boxes(alloc, offsets, levels);
    }
    let steps = sliding_steps(alloc, element)?;
    by_turns(alloc, &steps, levels)
}
