//! The least and the greatest, so that what is made by one is made by both in the same way.

ghost use Rattle.std.specs.Prelude.{◌≡◌, true};
ghost use Rattle.std.specs.Arc.{arc_value};
ghost use Rattle.mw_step_task.specs.Meanings.{meaning};
ghost use Rattle.mw_plan.specs.Forms.{is_slide};
ghost use Rattle.mw_plan.specs.Steps.{by_box, by_offsets, other};

use mw_model::OffsetBox;
use mw_step_task::Step;
use mw_step_task::element::Element;
use std::sync::Arc;

/// What is taken of the samples under an element.
#[derive(Clone, Copy)]
pub enum ExtremumKind {
    /// As an erosion takes it.
    Least,
    /// As a dilation takes it.
    Greatest,
}

impl ExtremumKind {
    pub(crate) fn other(self) -> ExtremumKind
        ensures { result ≡ other self }
    {
        match self {
            ExtremumKind::Least => ExtremumKind::Greatest,
            ExtremumKind::Greatest => ExtremumKind::Least,
        }
    }

    /// The step that takes it under the element.
    pub(crate) fn by_element(self, element: Arc<Element>) -> Step
        ensures is { meaning result ≡ by_offsets self (arc_value element).offsets }
        ensures slides { is_slide (meaning result) ≡ true }
    {
        match self {
            ExtremumKind::Least => Step::Erode(element),
            ExtremumKind::Greatest => Step::Dilate(element),
        }
    }

    /// The step that takes it under all offsets of a box.
    pub(crate) fn by_box(self, offsets: OffsetBox) -> Step
        ensures is { meaning result ≡ by_box self offsets }
        ensures slides { is_slide (meaning result) ≡ true }
    {
        match self {
            ExtremumKind::Least => Step::ErodeBox(offsets),
            ExtremumKind::Greatest => Step::DilateBox(offsets),
        }
    }
}
