//! Whether a window in pieces is one of a plane, told row by row.

use crate::{Piece, Pieces, overlap};
use mw_grid::whole_frame;
use mw_model::Rect;
use mw_tile::pixel::{Planar, Plane};

impl<P: Planar> Piece<P> {
    ghost use Rattle.std.specs.Prelude.{◌≡◌, ◌↔◌, ◌+◌, ◌<◌, ◌^◌, IsTrue};
    ghost use Rattle.mw_tile_pieces.specs.Patches.{cell_of, patch, IsInside, ShowsIn};

    /// Whether the piece has in the rectangle what a plane has there that stands at `at`, around the piece.
    pub fn agrees(&self, place: Rect, at: Rect, plane: &Plane<P>) -> bool
        requires across { place.x + place.width < 2 ^ 32 }
        requires down { place.y + place.height < 2 ^ 32 }
        requires across_at { at.x + at.width < 2 ^ 32 }
        requires down_at { at.y + at.height < 2 ^ 32 }
        requires width { plane.now.width ≡ at.width }
        requires height { plane.now.height ≡ at.height }
        requires inside { IsInside self.now.place at }
        ensures { IsTrue result ↔ ShowsIn place (cell_of (patch at plane.now.cells)) self.now }
    {
        let here = overlap(place, self.place());
        if here.width == 0 {
            return true;
        }
        // for its size
        let _height = plane.height();
        let (own, stands) = (self.plane(), self.place());
        for y in here.y..here.y + here.height {
            let (row, held) = (y - stands.y, y - at.y);
            if !own.same_run(
                here.x - stands.x,
                row,
                plane,
                here.x - at.x,
                held,
                here.width,
            ) {
                return false;
            }
        }
        true
    }
}

impl<P: Planar> Pieces<P> {
    ghost use Rattle.std.specs.Prelude.{◌↔◌, IsTrue};
    ghost use Rattle.mw_tile_pieces.specs.Patches.{ShowsFrame};

    /// Whether the window is one of the frame that the plane has, and shows what stands there.
    pub fn are_of(&self, plane: &Plane<P>) -> bool
        ensures { IsTrue result ↔ ShowsFrame plane.now self.now }
    {
        let (place, pieces) = (self.place(), self.pieces());
        let (width, height) = (plane.width(), plane.height());
        if self.frame_width() != width {
            return false;
        }
        if self.frame_height() != height {
            return false;
        }
        let at = whole_frame(width, height);
        for piece in pieces {
            if !piece.agrees(place, at, plane) {
                return false;
            }
        }
        true
    }
}
