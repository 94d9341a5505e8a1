//! Windows of images that are there in one piece.

use crate::{Pieces, PiecesView, SharedWindow};
use mw_model::{NoMemory, Rect};
use mw_tile::pixel::{Image, SharedView, View};
use std::alloc::Global;

impl SharedWindow {
    ghost use Rattle.std.specs.Prelude.{◌≡◌, ◌↔◌, IfOk, IsTrue};
    ghost use Rattle.mw_model.specs.Rectangles.{IsWithin};
    ghost use Rattle.mw_tile.specs.Windows.{window_of};

    /// The window of a rectangle of an image, as one more owner of the image's plane.
    pub fn of_image(alloc: Global, image: &Image, rect: Rect) -> Result<SharedWindow, NoMemory>
        requires { IsWithin rect image.now.width image.now.height }
        ensures { IfOk result (λ w. w ≡ window_of rect image.now) }
    {
        // for what holds of every image
        let _picture = image.view();
        match image.shared()? {
            SharedView::Bits(plane) => {
                let pieces = Pieces::of_plane(alloc, plane, rect)?;
                Ok(SharedWindow::bits(pieces))
            }
            SharedView::Grey8(plane, maxval) => {
                let pieces = Pieces::of_plane(alloc, plane, rect)?;
                Ok(SharedWindow::grey8(pieces, maxval))
            }
            SharedView::Grey16(plane, maxval) => {
                let pieces = Pieces::of_plane(alloc, plane, rect)?;
                Ok(SharedWindow::grey16(pieces, maxval))
            }
        }
    }

    /// Whether the window is that of a rectangle of an image. Its samples are compared row by row, which takes no memory.
    pub fn is_of_image(&self, image: &Image, rect: Rect) -> bool
        requires { IsWithin rect image.now.width image.now.height }
        ensures { IsTrue result ↔ (self.now ≡ window_of rect image.now) }
    {
        if self.place() != rect {
            return false;
        }
        match (self.view(), image.view()) {
            (PiecesView::Bits(a), View::Bits(p)) => a.are_of(p),
            (PiecesView::Grey8(a, m), View::Grey8(p, n)) => m == n && a.are_of(p),
            (PiecesView::Grey16(a, m), View::Grey16(p, n)) => m == n && a.are_of(p),
            _ => false,
        }
    }
}
