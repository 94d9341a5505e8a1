//! Images in one piece. Tiles are put together row by row.

ghost use Rattle.std.specs.Prelude.{◌≤◌, ◌↔◌, All, IsTrue};

use mw_pixel::{Bit, Image, NoMemory, Planar, Plane};
use mw_store::tiles::{TiledRows, TilesView, WholePlane};
use mw_store::{Plate, PlateView};
use std::alloc::Global;
use std::sync::Arc;

/// The samples of all tiles.
fn joined<P: Planar>(alloc: Global, tiles: &TiledRows<P>) -> Result<Plane<P>, NoMemory> {
    let (width, height) = (tiles.width(), tiles.height());
    let mut row = Plane::<P>::blank(alloc, width, 1)?;
    let mut out = Plane::<P>::blank(alloc, width, height)?;
    for y in 0..height {
        tiles.read(y, &mut row);
        out.copy_run(0, y, &row, 0, 0, width);
    }
    Ok(out)
}

fn set_image(alloc: Global, plane: Plane<Bit>) -> Option<Image> {
    // for its pixels, which are 0 or 1
    let _words = plane.words();
    match Arc::new(alloc, plane) {
        Ok(plane) => Some(Image::bits(plane)),
        Err(_) => None,
    }
}

fn are_bytes_up_to(samples: &[u8], maxval: u8) -> bool
    ensures { IsTrue result ↔ All (λ s. s ≤ maxval) samples.now }
{
    samples.iter().all(|s| *s <= maxval)
}

fn grey8_image(alloc: Global, plane: Plane<u8>, maxval: u8) -> Option<Image> {
    if maxval < 1 || !are_bytes_up_to(plane.samples(), maxval) {
        return None;
    }
    match Arc::new(alloc, plane) {
        Ok(plane) => Some(Image::grey8(plane, maxval)),
        Err(_) => None,
    }
}

fn are_words_up_to(samples: &[u16], maxval: u16) -> bool
    ensures { IsTrue result ↔ All (λ s. s ≤ maxval) samples.now }
{
    samples.iter().all(|s| *s <= maxval)
}

fn grey16_image(alloc: Global, plane: Plane<u16>, maxval: u16) -> Option<Image> {
    if maxval < 256 || !are_words_up_to(plane.samples(), maxval) {
        return None;
    }
    match Arc::new(alloc, plane) {
        Ok(plane) => Some(Image::grey16(plane, maxval)),
        Err(_) => None,
    }
}

fn image_of_tiles(alloc: Global, plane: &WholePlane) -> Option<Image> {
    match plane.view() {
        TilesView::Bits(tiles) => set_image(alloc, joined(alloc, &tiles).ok()?),
        TilesView::Grey8(tiles, maxval) => {
            grey8_image(alloc, joined(alloc, &tiles).ok()?, maxval)
        }
        TilesView::Grey16(tiles, maxval) => {
            grey16_image(alloc, joined(alloc, &tiles).ok()?, maxval)
        }
    }
}

/// The image of a share: one in one piece has one more owner, and one in tiles is put together. None where memory is
/// wanting, or where a sample is over the maxval.
pub fn whole_image(alloc: Global, plate: &Plate) -> Option<Image> {
    match plate.view() {
        PlateView::Image(image) => image.share().ok(),
        PlateView::Tiles(plane) => image_of_tiles(alloc, plane),
    }
}
