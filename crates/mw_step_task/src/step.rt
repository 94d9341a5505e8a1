//! Steps of plans.

use crate::offsets::{reach_of_box, same_box};
use mw_element::Element;
use mw_model::{NoMemory, OffsetBox, Reach};
use std::sync::Arc;

/// What one step of a plan computes. An element is shared, so that a task takes no copy of it.
#[derive(Drop)]
pub enum Step {
    /// The least sample under the element.
    Erode(Arc<Element>),
    /// The greatest sample under the element.
    Dilate(Arc<Element>),
    /// The least sample under all offsets of a box.
    ErodeBox(OffsetBox),
    /// The greatest sample under all offsets of a box.
    DilateBox(OffsetBox),
    /// The sample of this number, counted from 1, of those under the element in rising order.
    Rank(Arc<Element>, u32),
    /// The first source less the second, stopping at 0.
    Minus,
    /// The set of the places with this level or more.
    AtLeast(u32),
    /// The maxval less each sample.
    Invert,
    /// The least of both sources.
    Meet,
    /// The greatest of both sources.
    Join,
    /// 0 everywhere, in an image of this maxval.
    Blank(u16),
    /// This level where the second source is 1 and the third is 0, else the first source.
    Mark(u16),
    /// This level where the second source is 1, else the first source.
    MarkLast(u16),
    /// The set of the places with this level.
    Equal(u16),
    /// The sum of the samples.
    Sum,
}

impl Step {
    ghost use Rattle.std.specs.Prelude.{◌≡◌, ◌↔◌, IsTrue, IfOk};
    ghost use Rattle.mw_model.specs.Elements.{reach_of};
    ghost use Rattle.mw_model.specs.PlanSteps.{looks_at};
    ghost use Rattle.mw_model.specs.Plans.{is_sum};
    ghost use Rattle.mw_step_task.specs.Meanings.{meaning};
    ghost use Rattle.mw_step_task.specs.WindowTasks.{source_count};

    /// How many sources the step has.
    pub fn source_count(&self) -> usize
        ensures { result ≡ source_count (meaning self.now) }
    {
        match self {
            Step::Blank(_) => 0,
            Step::Minus => 2,
            Step::Meet => 2,
            Step::Join => 2,
            Step::MarkLast(_) => 2,
            Step::Mark(_) => 3,
            _ => 1,
        }
    }

    /// The greatest distance to which the step looks on each side.
    pub fn reach(&self) -> Reach
        ensures { result ≡ reach_of (looks_at (meaning self.now)) }
    {
        match self {
            Step::Erode(element) => element.reach(),
            Step::Dilate(element) => element.reach(),
            Step::ErodeBox(offsets) => reach_of_box(*offsets),
            Step::DilateBox(offsets) => reach_of_box(*offsets),
            Step::Rank(element, _) => element.reach(),
            _ => Reach {
                left: 0,
                right: 0,
                up: 0,
                down: 0,
            },
        }
    }

    /// Whether the step makes a number.
    pub fn is_sum(&self) -> bool
        ensures { result ≡ is_sum (meaning self.now) }
    {
        matches!(self, Step::Sum)
    }

    /// Whether both steps mean the same: the same operation, offsets in the same order, and numbers.
    pub fn same(&self, other: &Step) -> bool
        ensures { IsTrue result ↔ (meaning self.now ≡ meaning other.now) }
    {
        match (self, other) {
            (Step::Erode(a), Step::Erode(b)) => a.has_same_offsets(b),
            (Step::Dilate(a), Step::Dilate(b)) => a.has_same_offsets(b),
            (Step::ErodeBox(a), Step::ErodeBox(b)) => same_box(*a, *b),
            (Step::DilateBox(a), Step::DilateBox(b)) => same_box(*a, *b),
            (Step::Rank(a, k), Step::Rank(b, l)) => *k == *l && a.has_same_offsets(b),
            (Step::Minus, Step::Minus) => true,
            (Step::AtLeast(k), Step::AtLeast(l)) => *k == *l,
            (Step::Invert, Step::Invert) => true,
            (Step::Meet, Step::Meet) => true,
            (Step::Join, Step::Join) => true,
            (Step::Blank(m), Step::Blank(n)) => *m == *n,
            (Step::Mark(v), Step::Mark(w)) => *v == *w,
            (Step::MarkLast(v), Step::MarkLast(w)) => *v == *w,
            (Step::Equal(v), Step::Equal(w)) => *v == *w,
            (Step::Sum, Step::Sum) => true,
            _ => false,
        }
    }

    /// The step once more; an element has one more owner.
    pub fn share(&self) -> Result<Step, NoMemory>
        ensures { IfOk result (λ s. meaning s ≡ meaning self.now) }
    {
        Ok(match self {
            Step::Erode(element) => Step::Erode(Arc::try_clone(element)?),
            Step::Dilate(element) => Step::Dilate(Arc::try_clone(element)?),
            Step::ErodeBox(offsets) => Step::ErodeBox(*offsets),
            Step::DilateBox(offsets) => Step::DilateBox(*offsets),
            Step::Rank(element, k) => Step::Rank(Arc::try_clone(element)?, *k),
            Step::Minus => Step::Minus,
            Step::AtLeast(k) => Step::AtLeast(*k),
            Step::Invert => Step::Invert,
            Step::Meet => Step::Meet,
            Step::Join => Step::Join,
            Step::Blank(m) => Step::Blank(*m),
            Step::Mark(v) => Step::Mark(*v),
            Step::MarkLast(v) => Step::MarkLast(*v),
            Step::Equal(v) => Step::Equal(*v),
            Step::Sum => Step::Sum,
        })
    }
}
