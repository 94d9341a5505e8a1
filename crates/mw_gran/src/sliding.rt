//! The two steps of which turns are made.

ghost use Rattle.std.specs.Prelude.{◌≡◌, IfOk, IfSome, IfNone};
ghost use Rattle.std.specs.Arc.{arc_value};
ghost use Rattle.mw_plan.specs.mw_element.Figures.{FillsBox};
ghost use Rattle.mw_model.specs.declared.offsets.OffsetBox.{OffsetBox};
ghost use Rattle.mw_model.specs.Laws.{HoldsOrigin};
ghost use Rattle.mw_plan.specs.mw_step_task.Meanings.{meaning};
ghost use Rattle.mw_plan.specs.Steps.{IsNearBox};
ghost use Rattle.mw_gran.specs.Turns.{Slides};

use mw_model::{NoMemory, OffsetBox};
use mw_plan::element::Element;
use mw_plan::{ExtremumKind, Input, Step, slide, slide_turned};
use std::alloc::Global;
use std::sync::Arc;

/// The erosion by an element, and the dilation by the element turned round. Each turn takes both once more.
#[derive(Drop)]
pub(crate) struct SlidingSteps {
    pub(crate) erode: Step,
    pub(crate) dilate: Step,
}

/// The steps of an element, or `NoMemory`; those of a full rectangle go as its box.
pub(crate) fn sliding_steps(alloc: Global, element: &Arc<Element>) -> Result<SlidingSteps, NoMemory>
    ensures { IfOk result (λ s. Slides (arc_value element.now).offsets (meaning s.erode) (meaning s.dilate)) }
{
    let input = Input::Element(element);
    Ok(SlidingSteps {
        erode: slide(ExtremumKind::Least, input)?,
        dilate: slide_turned(alloc, ExtremumKind::Greatest, input)?,
    })
}

/// The box of a full rectangle that holds its origin.
pub(crate) fn rectangle_with_origin(element: &Element) -> Option<OffsetBox>
    ensures fills { IfSome result (λ box. FillsBox box element.now.offsets) }
    ensures holds { IfSome result (λ _. HoldsOrigin element.now.offsets) }
    ensures near { IfSome result IsNearBox }
    ensures none { IfNone result ((box : OffsetBox) → FillsBox box element.now.offsets → HoldsOrigin element.now.offsets → ⊥) }
{
    // The bounds of a box stay within the sides of an element.
    let _figure = element.offsets();
    if !element.holds_origin() {
        return None;
    }
    element.as_rectangle()
}
