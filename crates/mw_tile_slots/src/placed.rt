//! A tile in its place: one owner, among others, of its plane.

ghost use Rattle.std.specs.Prelude.{◌≡◌, ◌*◌, IfOk, length};
ghost use Rattle.std.specs.Arc.{arc_value};

use mw_model::NoMemory;
use mw_tile_pieces::pixel::{Planar, Plane};
use std::marker::Model;
use std::sync::Arc;

/// A tile that is placed. It shares its plane with all who read it.
#[derive(Drop)]
pub struct Placed<P: Planar> {
    plane: Arc<Plane<P>>,
}

impl<P: Planar> Model for Placed<P> {
    ghost use Rattle.std.specs.Arc.{arc_value};
    ghost use Rattle.mw_model.specs.Rasters.{Raster};

    ghost Value = { Raster P };

    ghost view = { λ t. arc_value t.plane };
}

impl<P: Planar> Placed<P> {
    /// The tile with this plane.
    pub fn new(plane: Arc<Plane<P>>) -> Placed<P>
        ensures value { result ≡ arc_value plane }
        ensures size { length result.cells ≡ result.height * result.width }
    {
        // for the size
        let _width = plane.width();
        Placed { plane }
    }

    /// The samples, whoever else owns them.
    pub(crate) fn plane(&self) -> &Plane<P>
        ensures { result.now ≡ self.now }
    {
        &self.plane
    }

    /// One more owner of the samples.
    pub(crate) fn owner(&self) -> Result<Arc<Plane<P>>, NoMemory>
        ensures { IfOk result (λ p. arc_value p ≡ self.now) }
    {
        Ok(Arc::try_clone(&self.plane)?)
    }
}
