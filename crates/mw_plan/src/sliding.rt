//! Steps that take an extremum, or a rank, under an element.

ghost use Rattle.std.specs.Prelude.{◌≡◌, ◌≤ℤ◌, pos, negsuc, neg_ℤ, true, IfOk, IfSome};
ghost use Rattle.std.specs.Arc.{arc_value};
ghost use Rattle.mw_step_task.specs.mw_element.Figures.{FillsBox};
ghost use Rattle.mw_model.specs.declared.offsets.OffsetBox.{OffsetBox};
ghost use Rattle.mw_model.specs.Flat.{reflected, rank};
ghost use Rattle.mw_step_task.specs.Meanings.{meaning};
ghost use Rattle.mw_plan.specs.Asked.{is_element_input, offsets_of_input};
ghost use Rattle.mw_plan.specs.Forms.{is_slide};
ghost use Rattle.mw_plan.specs.Steps.{ActsAs, IsNearBox, sliding, turned_box};

use crate::Input;
use crate::extremum::ExtremumKind;
use mw_model::{NoMemory, OffsetBox};
use mw_step_task::Step;
use mw_step_task::element::Element;
use std::alloc::Global;
use std::sync::Arc;

/// A bound of a box, seen from the other side.
fn turn_bound(bound: i32) -> i32
    requires low { negsuc 254 ≤ℤ bound }
    requires high { bound ≤ℤ pos 254 }
    ensures { result ≡ neg_ℤ bound }
{
    -bound
}

/// The box turned round its origin.
pub fn turned(offsets: OffsetBox) -> OffsetBox
    requires { IsNearBox offsets }
    ensures value { result ≡ turned_box offsets }
    ensures near { IsNearBox result }
{
    OffsetBox {
        x0: turn_bound(offsets.x1),
        x1: turn_bound(offsets.x0),
        y0: turn_bound(offsets.y1),
        y1: turn_bound(offsets.y0),
    }
}

/// The box of a full rectangle, turned round.
fn turned_rectangle(element: &Element) -> Option<OffsetBox>
    ensures { IfSome result (λ t. (box : OffsetBox) × (t ≡ turned_box box) × FillsBox box element.now.offsets) }
{
    // Its bounds stay within the sides of an element.
    let _figure = element.offsets();
    let offsets = element.as_rectangle()?;
    Some(turned(offsets))
}

/// The extremum under the element, or `NoMemory`. A full rectangle goes as its box.
pub fn slide(extremum: ExtremumKind, input: Input<'_>) -> Result<Step, NoMemory>
    requires { is_element_input input ≡ true }
    ensures acts { IfOk result (λ s. ActsAs (meaning s) (sliding extremum (offsets_of_input input.entry))) }
    ensures slides { IfOk result (λ s. is_slide (meaning s) ≡ true) }
{
    let element = input.element();
    Ok(match element.as_rectangle() {
        Some(offsets) => extremum.by_box(offsets),
        None => extremum.by_element(Arc::try_clone(element)?),
    })
}

/// The extremum under the element turned round, or `NoMemory`.
pub fn slide_turned(
    alloc: Global,
    extremum: ExtremumKind,
    input: Input<'_>,
) -> Result<Step, NoMemory>
    requires { is_element_input input ≡ true }
    ensures acts { IfOk result (λ s. ActsAs (meaning s) (sliding extremum (reflected (offsets_of_input input.entry)))) }
    ensures slides { IfOk result (λ s. is_slide (meaning s) ≡ true) }
{
    let element = input.element();
    if let Some(offsets) = turned_rectangle(element) {
        return Ok(extremum.by_box(offsets));
    }
    let turned = element.reflect(alloc)?;
    Ok(extremum.by_element(Arc::new(alloc, turned)?))
}

/// The sample of this number under the element, in rising order.
pub(crate) fn rank(input: Input<'_>, k: u32) -> Result<Step, NoMemory>
    requires { is_element_input input ≡ true }
    ensures acts { IfOk result (λ s. ActsAs (meaning s) (rank (offsets_of_input input.entry) k)) }
    ensures slides { IfOk result (λ s. is_slide (meaning s) ≡ true) }
{
    Ok(Step::Rank(Arc::try_clone(input.element())?, k))
}
