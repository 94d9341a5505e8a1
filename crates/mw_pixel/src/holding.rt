//! Planes that may have several owners.

ghost use Rattle.std.specs.Prelude.{◌≡◌};
ghost use Rattle.std.specs.Arc.{arc_value};

use crate::{Planar, Plane};
use std::marker::Model;
use std::sync::Arc;

#[derive(Drop)]
enum Owners<P: Planar> {
    One(Plane<P>),
    Several(Arc<Plane<P>>),
}

/// A plane that has one owner, or that others may own too. Which of both it is, is no part of its value.
#[derive(Drop)]
pub struct HeldPlane<P: Planar> {
    owners: Owners<P>,
}

impl<P: Planar> Model for HeldPlane<P> {
    ghost use Rattle.mw_model.specs.Rasters.{Raster};
    ghost use Rattle.mw_pixel.specs.Holding.{held_plane};

    ghost Value = { Raster P };

    ghost view = { λ h. held_plane h.owners };
}

impl<P: Planar> HeldPlane<P> {
    /// A plane that no other owns.
    pub fn alone(plane: Plane<P>) -> HeldPlane<P>
        ensures { result ≡ plane }
    {
        HeldPlane {
            owners: Owners::One(plane),
        }
    }

    /// A plane that others may own too.
    pub fn sharing(plane: Arc<Plane<P>>) -> HeldPlane<P>
        ensures { result ≡ arc_value plane }
    {
        HeldPlane {
            owners: Owners::Several(plane),
        }
    }

    /// The plane, whoever else owns it.
    pub fn plane(&self) -> &Plane<P>
        ensures { result.now ≡ self.now }
    {
        match &self.owners {
            Owners::One(plane) => plane,
            Owners::Several(plane) => plane,
        }
    }
}
