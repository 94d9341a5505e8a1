//! Shares of images that are kept.

ghost use Rattle.std.specs.Prelude.{◌≡◌, IfOk};
ghost use Rattle.mw_store.specs.PlateViews.{picture_seen};

use mw_model::NoMemory;
use mw_tile_planes::WholePlane;
use mw_tile_planes::pixel::Image;
use std::alloc::Global;
use std::marker::Model;

/// What is shared: the image's one plane, or each of its tiles.
#[derive(Drop)]
enum Share {
    Image(Image),
    Tiles(WholePlane),
}

/// A share of an image, to be looked at: its one plane, or its tiles.
#[derive(Clone, Copy)]
pub enum PlateView<'a> {
    Image(&'a Image),
    Tiles(&'a WholePlane),
}

/// A share of a done image. It stays good whatever becomes of the entry.
#[derive(Drop)]
pub struct Plate {
    share: Share,
}

impl Model for Plate {
    ghost use Rattle.mw_model.specs.Pictures.{Picture};
    ghost use Rattle.mw_store.specs.Plates.{picture_shared};

    ghost Value = { Picture };

    ghost view = { λ p. picture_shared p.share };
}

impl Plate {
    /// An image in one piece, as one more owner of its plane.
    pub(crate) fn of_image(image: &Image) -> Result<Plate, NoMemory>
        ensures { IfOk result (λ p. p ≡ image.now) }
    {
        Ok(Plate {
            share: Share::Image(image.share()?),
        })
    }

    /// An image in tiles, as one more owner of each of them.
    pub(crate) fn of_tiles(alloc: Global, plane: &WholePlane) -> Result<Plate, NoMemory>
        ensures { IfOk result (λ p. p ≡ plane.now) }
    {
        Ok(Plate {
            share: Share::Tiles(plane.share(alloc)?),
        })
    }

    /// What is shared, to be looked at.
    pub fn view(&self) -> PlateView<'_>
        ensures { picture_seen result ≡ self.now }
    {
        match &self.share {
            Share::Image(image) => PlateView::Image(image),
            Share::Tiles(plane) => PlateView::Tiles(plane),
        }
    }
}
