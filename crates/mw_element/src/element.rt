//! Elements.

ghost use Rattle.std.specs.Prelude.{◌≡◌};

use crate::{offsets, runs};
use mw_element_runs::Run;
use mw_model::{NoMemory, Offset, OffsetBox, Reach, Shape};
use std::alloc::Global;
use std::marker::Model;

/// A list of distinct offsets, not empty, with the size of the bitmap that it came from. What is asked of the offsets for each
/// tile is found when the element is made, so that no tile walks them.
#[derive(Drop)]
pub struct Element {
    width: u32,
    height: u32,
    offsets: Vec<Offset>,
    /// Whether the offsets stand by rows from the last to the first.
    is_turned: bool,
    reach: Reach,
    rectangle: Option<OffsetBox>,
    runs: Vec<Run>,
}

impl Model for Element {
    ghost use Rattle.mw_model.specs.declared.limits.TheConstants.{OFFSET_LIMIT};
    ghost use Rattle.mw_model.specs.Elements.{Figure, IsFigure, reach_of};
    ghost use Rattle.mw_element.specs.Figures.{OffsetsRise, by_rows, figure};
    ghost use Rattle.mw_element.specs.Told.{TellsBox, TellsRuns};

    ghost Value = { Figure };

    ghost view = { λ a. figure a.width a.height a.offsets.items };

    ghost use Rattle.std.specs.Prelude.{◌≡◌, ◌≤◌, length};

    ghost invariant = { λ a. IsFigure (figure a.width a.height a.offsets.items) × (length a.offsets.items ≤ OFFSET_LIMIT) × OffsetsRise (by_rows a.is_turned a.offsets.items) × (a.reach ≡ reach_of a.offsets.items) × TellsBox a.rectangle a.offsets.items × TellsRuns a.is_turned a.runs.items a.offsets.items };
}

impl Element {
    ghost use Rattle.std.specs.Prelude.{◌≡◌, ◌↔◌, ◌≤◌, length, IsTrue, IfOk, IfSome, IfNone};
    ghost use Rattle.mw_model.specs.declared.limits.TheConstants.{OFFSET_LIMIT};
    ghost use Rattle.mw_model.specs.declared.offsets.OffsetBox.{OffsetBox};
    ghost use Rattle.mw_model.specs.Elements.{IsFigure, holds_origin, overlaps, reach_of};
    ghost use Rattle.mw_element.specs.Figures.{FillsBox, OffsetsRise, figure};
    ghost use Rattle.std.specs.List.{AllByRecursion};
    ghost use Rattle.mw_model.specs.Flat.{reflected};
    ghost use Rattle.mw_model.specs.Rectangles.{WithinReach};
    ghost use Rattle.mw_element_runs.specs.Runs.{AreEitherWay, AreLongest, AreFewest, IsRun};
    ghost use Rattle.mw_element.specs.Told.{TellsBox};

    /// The element of offsets that stand by rows, or `NoMemory`.
    pub(crate) fn new(
        alloc: Global,
        width: u32,
        height: u32,
        offsets: Vec<Offset>,
    ) -> Result<Element, NoMemory>
        requires figure { IsFigure (figure width height offsets.items) }
        requires few { length offsets.items ≤ OFFSET_LIMIT }
        requires ordered { OffsetsRise offsets.items }
        ensures { IfOk result (λ e. e ≡ figure width height offsets.items) }
    {
        let reach = offsets::reach(&offsets);
        let rectangle = offsets::as_box(&offsets);
        let runs = runs::by_rows(alloc, &offsets)?;
        Ok(Element {
            width,
            height,
            offsets,
            is_turned: false,
            reach,
            rectangle,
            runs,
        })
    }

    /// The offsets, by the rows of the bitmap; those of a reflected element in the same order.
    pub fn offsets(&self) -> &[Offset]
        ensures value { result.now ≡ self.now.offsets }
        ensures figure { IsFigure self.now }
        ensures few { length self.now.offsets ≤ OFFSET_LIMIT }
    {
        &self.offsets
    }

    /// How many offsets there are.
    pub fn size(&self) -> usize
        ensures { result ≡ length self.now.offsets }
    {
        self.offsets.len()
    }

    /// The width of the bitmap in pixels.
    pub fn width(&self) -> u32
        ensures { result ≡ self.now.width }
    {
        self.width
    }

    /// The height of the bitmap in pixels.
    pub fn height(&self) -> u32
        ensures { result ≡ self.now.height }
    {
        self.height
    }

    /// The size of the bitmap.
    pub fn shape(&self) -> Shape
        ensures { result ≡ Shape.Element self.now.width self.now.height }
    {
        Shape::Element(self.width, self.height)
    }

    /// The reach of the offsets turned round.
    fn turned_reach(&self) -> Reach
        ensures { result ≡ reach_of (reflected self.now.offsets) }
    {
        Reach {
            left: self.reach.right,
            right: self.reach.left,
            up: self.reach.down,
            down: self.reach.up,
        }
    }

    /// The box whose offsets are those turned round, if there is one.
    fn turned_rectangle(&self, turned: &[Offset]) -> Option<OffsetBox>
        requires { turned.now ≡ reflected self.now.offsets }
        ensures { TellsBox result turned.now }
    {
        match self.rectangle {
            Some(_) => offsets::as_box(turned),
            None => None,
        }
    }

    /// The element with each offset turned round, or `NoMemory`.
    pub fn reflect(&self, alloc: Global) -> Result<Element, NoMemory>
        ensures { IfOk result (λ e. e ≡ figure self.now.width self.now.height (reflected self.now.offsets)) }
    {
        let turned = offsets::turn(alloc, &self.offsets)?;
        let runs = runs::turn(alloc, &self.runs)?;
        let reach = self.turned_reach();
        let rectangle = self.turned_rectangle(&turned);
        Ok(Element {
            width: self.width,
            height: self.height,
            offsets: turned,
            is_turned: !self.is_turned,
            reach,
            rectangle,
            runs,
        })
    }

    /// Whether the offset (0, 0) is one of them.
    pub fn holds_origin(&self) -> bool
        ensures { result ≡ holds_origin self.now.offsets }
    {
        offsets::hold_origin(&self.offsets)
    }

    /// Whether the elements share an offset.
    pub fn overlaps(&self, other: &Element) -> bool
        ensures { result ≡ overlaps self.now.offsets other.now.offsets }
    {
        offsets::overlap(
            &self.offsets,
            self.is_turned,
            &other.offsets,
            other.is_turned,
        )
    }

    /// Whether both are the same element: sides and offsets.
    pub fn same(&self, other: &Element) -> bool
        ensures { IsTrue result ↔ (self.now ≡ other.now) }
    {
        self.width == other.width && self.height == other.height && self.has_same_offsets(other)
    }

    /// Whether both have the same offsets in the same order. Runs tell of an element and its copy that they do, so that their
    /// offsets need not be walked.
    pub fn has_same_offsets(&self, other: &Element) -> bool
        ensures { IsTrue result ↔ (self.now.offsets ≡ other.now.offsets) }
    {
        if self.is_turned == other.is_turned && runs::same(&self.runs, &other.runs) {
            return true;
        }
        offsets::same(&self.offsets, &other.offsets)
    }

    /// The greatest distance to the left, right, up and down, at least 0 each.
    pub fn reach(&self) -> Reach
        ensures value { result ≡ reach_of self.now.offsets }
        ensures within { WithinReach result self.now.offsets }
    {
        self.reach
    }

    /// The box whose offsets these exactly are, if there is one.
    pub fn as_rectangle(&self) -> Option<OffsetBox>
        ensures some { IfSome result (λ box. FillsBox box self.now.offsets) }
        ensures none { IfNone result ((box : OffsetBox) → FillsBox box self.now.offsets → ⊥) }
    {
        self.rectangle
    }

    /// The fewest runs that the offsets can be cut into in their order or in the opposite one, each as long as it can be in that
    /// order: for extrema, which take no notice of the order.
    pub fn runs(&self) -> &[Run]
        ensures offsets { AreEitherWay self.now.offsets result.now }
        ensures runs { AllByRecursion IsRun result.now }
        ensures longest { AreLongest result.now }
        ensures fewest { AreFewest self.now.offsets result.now }
    {
        &self.runs
    }
}
