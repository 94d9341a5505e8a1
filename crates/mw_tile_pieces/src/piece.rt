//! Pieces of a frame.

ghost use Rattle.std.specs.Prelude.{◌≡◌, IfOk};
ghost use Rattle.std.specs.Arc.{arc_value};
ghost use Rattle.mw_model.specs.Rasters.{raster};
ghost use Rattle.mw_tile_pieces.specs.Patches.{patch, IsFull};

use mw_model::{NoMemory, Rect};
use mw_tile::pixel::{Planar, Plane};
use std::marker::Model;
use std::sync::Arc;

/// The samples of a rectangle of a frame, of which others can be owners too.
#[derive(Drop)]
pub struct Piece<P: Planar> {
    place: Rect,
    plane: Arc<Plane<P>>,
}

impl<P: Planar> Model for Piece<P> {
    ghost use Rattle.std.specs.Prelude.{◌≡◌};
    ghost use Rattle.std.specs.Arc.{arc_value};
    ghost use Rattle.mw_tile_pieces.specs.Patches.{patch, Patch};

    ghost Value = { Patch P };

    ghost view = { λ p. patch p.place (arc_value p.plane).cells };

    ghost invariant = { λ p. ((arc_value p.plane).width ≡ p.place.width) × ((arc_value p.plane).height ≡ p.place.height) };
}

impl<P: Planar> Piece<P> {
    /// The piece that has these samples in the rectangle.
    pub fn new(place: Rect, plane: Arc<Plane<P>>) -> Piece<P>
        requires width { (arc_value plane).width ≡ place.width }
        requires height { (arc_value plane).height ≡ place.height }
        ensures value { result ≡ patch place (arc_value plane).cells }
        ensures full { IsFull result }
    {
        // for the size
        let _width = plane.width();
        Piece { place, plane }
    }

    /// The rectangle.
    pub fn place(&self) -> Rect
        ensures { result ≡ self.now.place }
    {
        self.place
    }

    /// The samples, whoever else owns them.
    pub fn plane(&self) -> &Plane<P>
        ensures value { result.now ≡ raster self.now.place.width self.now.place.height self.now.cells }
        ensures full { IsFull self.now }
    {
        // for the size
        let _width = self.plane.width();
        &self.plane
    }

    /// One more owner of the samples. It may want memory (`NoMemory`).
    pub fn owner(&self) -> Result<Arc<Plane<P>>, NoMemory>
        ensures { IfOk result (λ p. arc_value p ≡ raster self.now.place.width self.now.place.height self.now.cells) }
    {
        Ok(Arc::try_clone(&self.plane)?)
    }
}
