//! Windows of a frame of which only some rows are there.

ghost use Rattle.std.specs.Prelude.{◌≡◌, [], ◌∷◌, IfOk};
ghost use Rattle.std.specs.Arc.{arc_value};
ghost use Rattle.mw_model.specs.Pictures.{Picture};
ghost use Rattle.mw_model.specs.Rectangles.{IsWithin};
ghost use Rattle.mw_tile_pieces.specs.Patches.{joint, patch};
ghost use Rattle.mw_tile.specs.Windows.{window_of};
ghost use Rattle.mw_step_task.specs.WindowTasks.{IsBounded};
ghost use Rattle.mw_c_arrays.specs.Sources.{IsArrayImage, picture_in};
ghost use Rattle.mw_c_layers.specs.Origins.{IsOrigin, origin_picture};
ghost use Rattle.mw_c_layers.specs.Parts.{IsStrip, part_of};

use crate::origins::Origin;
use crate::rows::rows;
use mw_c_arrays::ArrayImage;
use mw_model::{NoMemory, Rect};
use mw_pixel::{Image, Planar, Plane, SharedView};
use mw_tile_pieces::{Piece, Pieces, SharedWindow};
use std::alloc::Global;
use std::sync::Arc;

/// The window that has the plane in this place.
fn pieces<P: Planar>(
    alloc: Global,
    width: u32,
    height: u32,
    place: Rect,
    plane: Arc<Plane<P>>,
) -> Result<Pieces<P>, NoMemory>
    requires within { IsWithin place width height }
    requires wide { (arc_value plane).width ≡ place.width }
    requires high { (arc_value plane).height ≡ place.height }
    ensures { IfOk result (λ r. r ≡ joint width height place (patch place (arc_value plane).cells ∷ [])) }
{
    let piece = Piece::new(place, plane);
    Pieces::one(alloc, width, height, place, piece)
}

/// The window of a frame that has the image in this place.
pub(crate) fn standing(
    alloc: Global,
    width: u32,
    height: u32,
    place: Rect,
    image: &Image,
) -> Result<SharedWindow, NoMemory>
    requires within { IsWithin place width height }
    requires wide { image.now.width ≡ place.width }
    requires high { image.now.height ≡ place.height }
    ensures { (f : Picture) → f.width ≡ width → f.height ≡ height → image.now ≡ part_of f place → IfOk result (λ w. w ≡ window_of place f) }
{
    match image.shared()? {
        SharedView::Bits(plane) => {
            let pieces = pieces(alloc, width, height, place, plane)?;
            Ok(SharedWindow::bits(pieces))
        }
        SharedView::Grey8(plane, maxval) => {
            let pieces = pieces(alloc, width, height, place, plane)?;
            Ok(SharedWindow::grey8(pieces, maxval))
        }
        SharedView::Grey16(plane, maxval) => {
            let pieces = pieces(alloc, width, height, place, plane)?;
            Ok(SharedWindow::grey16(pieces, maxval))
        }
    }
}

/// The window of some rows of an array.
fn window_of_array(alloc: Global, f: ArrayImage<'_>, place: Rect) -> Result<SharedWindow, NoMemory>
    requires sound { IsArrayImage f }
    requires strip { IsStrip place (picture_in f) }
    ensures window { IfOk result (λ w. w ≡ window_of place (picture_in f.entry)) }
    ensures bounded { IfOk result IsBounded }
{
    let image = rows(alloc, f, place)?;
    standing(alloc, f.width(), f.height(), place, &image)
}

/// The window of some rows of what a first step made. It shares the samples.
fn window_of_made(alloc: Global, f: &Image, place: Rect) -> Result<SharedWindow, NoMemory>
    requires { IsStrip place f.now }
    ensures window { IfOk result (λ w. w ≡ window_of place f.now) }
    ensures bounded { IfOk result IsBounded }
{
    // for what holds of every image
    let _picture = f.view();
    SharedWindow::of_image(alloc, f, place)
}

/// The window of some rows of the image.
pub(crate) fn window(alloc: Global, f: Origin<'_>, place: Rect) -> Result<SharedWindow, NoMemory>
    requires sound { IsOrigin f }
    requires strip { IsStrip place (origin_picture f) }
    ensures window { IfOk result (λ w. w ≡ window_of place (origin_picture f.entry)) }
    ensures bounded { IfOk result IsBounded }
{
    match f {
        Origin::Array(f) => window_of_array(alloc, f, place),
        Origin::Made(f) => window_of_made(alloc, f, place),
    }
}
