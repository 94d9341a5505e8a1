//! Sources that a step makes again, where it finds nothing to change: the result is one more owner of what was read, and no
//! sample is copied. Most tiles of a step that marks places are such: a level of a skeleton has its places in few of them.

ghost use Rattle.std.specs.Prelude.{◌≡◌, ◌*◌, length, IfOk, IfSome};
ghost use Rattle.std.specs.Arc.{arc_value};
ghost use Rattle.mw_step_task.specs.mw_tile_pieces.Patches.{IsJoint, IsWholeOf};
ghost use Rattle.mw_step_task.specs.Products.{HoldsImage, plane_drawn};

use mw_model::NoMemory;
use mw_step_task::TileResult;
use mw_step_task::pieces::{Pieces, PiecesView, SharedWindow};
use mw_step_task::pixel::{Planar, Plane};
use std::sync::Arc;

/// One more owner of the samples of the window, where one piece is the window.
fn owner<P: Planar>(pieces: &Pieces<P>) -> Result<Option<Arc<Plane<P>>>, NoMemory>
    ensures { IfOk result (λ o. IfSome o (λ p. IsWholeOf pieces.now (arc_value p))) }
{
    match pieces.pieces() {
        [piece] => {
            if piece.place() == pieces.place() {
                Ok(Some(piece.owner()?))
            } else {
                Ok(None)
            }
        }
        _ => Ok(None),
    }
}

/// The window as what a task makes, where one piece is the window: one more owner of that piece's samples.
pub(crate) fn shared(window: &SharedWindow) -> Result<Option<TileResult>, NoMemory>
    ensures held { IfOk result (λ o. IfSome o (HoldsImage (plane_drawn window.now.kind window.now.maxval window.now.view.place window.now.view.cells))) }
    ensures size { length window.now.view.cells ≡ window.now.view.place.height * window.now.view.place.width }
{
    match window.view() {
        PiecesView::Bits(pieces) => match owner(pieces)? {
            Some(plane) => Ok(Some(TileResult::Bits(plane))),
            None => Ok(None),
        },
        PiecesView::Grey8(pieces, maxval) => match owner(pieces)? {
            Some(plane) => Ok(Some(TileResult::Grey8(plane, maxval))),
            None => Ok(None),
        },
        PiecesView::Grey16(pieces, maxval) => match owner(pieces)? {
            Some(plane) => Ok(Some(TileResult::Grey16(plane, maxval))),
            None => Ok(None),
        },
    }
}
