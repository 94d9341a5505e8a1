//! Planes whose tiles are all placed, seen as the image that they show.

ghost use Rattle.std.specs.Prelude.{◌≡◌, ◌↔◌, ◌≤◌, IfOk, IsTrue};
ghost use Rattle.mw_model.specs.Pictures.{IsPicture};
ghost use Rattle.mw_model.specs.Rectangles.{IsWithin};
ghost use Rattle.mw_step_task.specs.mw_tile.Windows.{window_of};
ghost use Rattle.mw_tile_planes.specs.Tiles.{AllPlaced, IsPlaneOf};
ghost use Rattle.mw_tile_planes.specs.Filled.{filled};
ghost use Rattle.mw_tile_planes.specs.Views.{ShowsInTiles};

use crate::{TiledPlane, TilesView};
use mw_model::{Kind, NoMemory, Rect};
use mw_step_task::pieces::SharedWindow;
use std::alloc::Global;
use std::marker::Model;

/// A plane of which every tile is placed. Contracts see it as the image that it shows.
#[derive(Drop)]
pub struct WholePlane {
    plane: TiledPlane,
}

impl Model for WholePlane {
    ghost use Rattle.mw_model.specs.Pictures.{Picture};

    ghost Value = { Picture };

    ghost use Rattle.mw_tile_planes.specs.Filled.{filled};

    ghost view = { λ p. filled p.plane };

    ghost use Rattle.mw_tile_planes.specs.Tiles.{AllPlaced, TiledIsSound};

    ghost invariant = { λ p. AllPlaced p.plane × TiledIsSound p.plane };
}

impl WholePlane {
    /// The plane, with all its tiles.
    pub fn of(plane: TiledPlane) -> WholePlane
        requires { AllPlaced plane }
        ensures value { result ≡ filled plane }
        ensures shows { IsPlaneOf plane result }
        ensures picture { IsPicture result }
    {
        plane.sound();
        WholePlane { plane }
    }

    /// Whether it is a set or in levels of grey.
    pub fn kind(&self) -> Kind
        ensures { result ≡ self.now.kind }
    {
        self.plane.kind()
    }

    /// The greatest level that a sample may have.
    pub fn maxval(&self) -> u16
        ensures { result ≡ self.now.maxval }
    {
        self.plane.maxval()
    }

    /// Pixels in a row.
    pub fn width(&self) -> u32
        ensures value { result ≡ self.now.width }
        ensures picture { IsPicture self.now }
    {
        self.plane.grid().width()
    }

    /// Rows.
    pub fn height(&self) -> u32
        ensures value { result ≡ self.now.height }
        ensures picture { IsPicture self.now }
    {
        self.plane.grid().height()
    }

    /// The window of a rectangle, as one more owner of each tile that meets it. No sample is copied.
    pub fn shared(&self, alloc: Global, rect: Rect) -> Result<SharedWindow, NoMemory>
        requires some { (1 ≤ rect.width) × (1 ≤ rect.height) }
        requires within { IsWithin rect self.now.width self.now.height }
        ensures { IfOk result (λ w. w ≡ window_of rect self.now) }
    {
        let window = self.plane.shared(alloc, rect)?;
        Ok(window)
    }

    /// Whether a window is the image's in a rectangle. This takes no memory.
    pub fn matches(&self, rect: Rect, window: &SharedWindow) -> bool
        requires { IsWithin rect self.now.width self.now.height }
        ensures { IsTrue result ↔ (window.now ≡ window_of rect self.now) }
    {
        self.plane.matches(rect, window)
    }

    /// The tiles, to be looked at.
    pub fn view(&self) -> TilesView<'_>
        ensures shows { ShowsInTiles self.now result }
        ensures picture { IsPicture self.now }
    {
        self.plane.view()
    }

    /// This image once more, as one more owner of each tile.
    pub fn share(&self, alloc: Global) -> Result<WholePlane, NoMemory>
        ensures { IfOk result (λ p. p ≡ self.now) }
    {
        let plane = self.plane.share(alloc)?;
        Ok(WholePlane { plane })
    }
}
