//! The extremum of what a window has under an element or a box.

ghost use Rattle.std.specs.Prelude.{IfOk};
ghost use Rattle.mw_model.specs.Rectangles.{box_offsets};
ghost use Rattle.mw_model.specs.Windows.{seen_at};
ghost use Rattle.mw_rank_bits.specs.mw_line.Extrema.{IsSlidingExtremum};

use mw_model::{NoMemory, OffsetBox, Rect};
use mw_rank_bits::bits;
use mw_rank_bits::bits::WordExtremum;
use mw_rank_bits::line::rectangle;
use mw_rank_bits::offset::extremum_of_runs;
use mw_step_task::element::Element;
use mw_step_task::pixel::{Bit, Extremum, Grey, Plane};
use mw_step_task::tile::Window;
use std::alloc::Global;

/// The extremum of the samples under the element, at each place of the tile, of an image with this maxval. A full
/// rectangle is slid by doubling, any other element goes by its runs.
pub(crate) fn under_element<P: Grey, E: Extremum<P>>(
    alloc: Global,
    window: &Window<P>,
    element: &Element,
    maxval: P,
    tile: Rect,
) -> Result<Plane<P>, NoMemory>
    ensures { IfOk result (IsSlidingExtremum E.merge (E.neutral_of maxval) (seen_at window.now) element.now.offsets tile) }
{
    match element.as_rectangle() {
        Some(offsets) => under_box::<P, E>(alloc, window, offsets, maxval, tile),
        None => {
            let (offsets, runs) = (element.offsets(), element.runs());
            extremum_of_runs::<P, E>(alloc, window, offsets, runs, E::neutral(maxval), tile)
        }
    }
}

/// The extremum of the samples under the box, at each place of the tile, of an image with this maxval.
pub(crate) fn under_box<P: Grey, E: Extremum<P>>(
    alloc: Global,
    window: &Window<P>,
    offsets: OffsetBox,
    maxval: P,
    tile: Rect,
) -> Result<Plane<P>, NoMemory>
    ensures { IfOk result (IsSlidingExtremum E.merge (E.neutral_of maxval) (seen_at window.now) (box_offsets offsets) tile) }
{
    rectangle::<P, E>(alloc, window, offsets, E::neutral(maxval), tile)
}

/// The extremum of what a set has under the element, at each place of the tile.
pub(crate) fn set_under_element<E: WordExtremum>(
    alloc: Global,
    set: &Window<Bit>,
    element: &Element,
    tile: Rect,
) -> Result<Plane<Bit>, NoMemory>
    ensures { IfOk result (IsSlidingExtremum E.merge (E.neutral_of 1) (seen_at set.now) element.now.offsets tile) }
{
    match element.as_rectangle() {
        Some(offsets) => Ok(bits::rectangle::<E>(alloc, set, offsets, tile)?),
        None => {
            let (offsets, runs) = (element.offsets(), element.runs());
            Ok(bits::extremum_of_runs::<E>(alloc, set, offsets, runs, tile)?)
        }
    }
}
