//! What stands in the place of an input.

ghost use Rattle.std.specs.Prelude.{◌≡◌, ℕ, List, Option, option_map, true};
ghost use Rattle.std.specs.Arc.{arc_value};
ghost use Rattle.mw_model.specs.Refusals.{Table, shape_at};
ghost use Rattle.mw_model.specs.Values.{Value, value_at};
ghost use Rattle.mw_plan.specs.Asked.{is_element_input, offsets_of_input};
ghost use Rattle.mw_plan.specs.Tables.{IsInputAt, figure_in};

use mw_model::Shape;
use mw_step_task::element::Element;
use std::sync::Arc;

/// An input of an operation, as far as plans know it. It is copied without memory.
#[derive(Clone, Copy)]
pub enum Input<'a> {
    /// An image of this shape, whose samples need not be there yet.
    Image(Shape),
    Element(&'a Arc<Element>),
    /// The volumes of a curve, which no operation takes.
    Curve,
    Absent,
}

impl<'a> Input<'a> {
    /// The input of an entry of this shape, of which this element is kept, if one is.
    pub fn of(shape: Shape, element: Option<&'a Arc<Element>>) -> Input<'a>
        ensures { (w : Table) (kept : List (Option Value)) (t : ℕ) → shape_at w.submissions t ≡ shape → figure_in (value_at kept t) ≡ option_map (λ b. arc_value b.now) element.entry → IsInputAt w kept t result }
    {
        match shape {
            Shape::Image(_, _, _, _) => Input::Image(shape),
            Shape::Curve(_) => Input::Curve,
            Shape::Element(_, _) => match element {
                Some(element) => Input::Element(element),
                None => Input::Absent,
            },
        }
    }

    /// The element that stands there.
    pub fn element(self) -> &'a Arc<Element>
        requires { is_element_input self ≡ true }
        ensures { (arc_value result.now).offsets ≡ offsets_of_input self.entry }
    {
        match self {
            Input::Element(element) => element,
            _ => unreachable!(),
        }
    }
}
