//! Windows that are put together.

ghost use Rattle.std.specs.Prelude.{◌≡◌, IfOk};
ghost use Rattle.mw_tile_pieces.specs.Patches.{IsJoined, IsWholeOf};

use crate::uniform::only_pixel;
use crate::{Pieces, PiecesView, SharedWindow, bits, levels};
use mw_model::NoMemory;
use mw_tile::pixel::{Bit, Grey, Plane, Words, copies};
use mw_tile::words::{repeated, stride};
use mw_tile::{AnyWindow, Window};
use std::alloc::Global;

/// The window of a source in levels of grey.
fn of_levels<P: Grey>(alloc: Global, pieces: &Pieces<P>) -> Result<Window<P>, NoMemory>
    ensures { IfOk result (IsJoined pieces.now) }
{
    if let Some(window) = pieces.shared()? {
        return Ok(window);
    }
    let (width, height, place) = (pieces.frame_width(), pieces.frame_height(), pieces.place());
    // for what holds of all pieces
    let _pieces = pieces.pieces();
    let mut samples = copies(alloc, place.height as usize * place.width as usize, P::TOP)?;
    levels::lay_all(&mut samples, pieces);
    let plane = Plane::new(place.width, place.height, samples);
    Ok(Window::new(width, height, place, plane))
}

/// The pixels of a window, laid piece by piece.
fn laid(alloc: Global, pieces: &Pieces<Bit>) -> Result<Words, NoMemory>
    ensures { IfOk result (IsWholeOf pieces.now) }
{
    let place = pieces.place();
    // for what holds of all pieces
    let _pieces = pieces.pieces();
    let mut words = repeated(alloc, place.height as usize * stride(place.width), 0)?;
    bits::lay_all(&mut words, pieces);
    Ok(Words::new(place.width, place.height, words))
}

/// The pixels of a window.
fn pixels_of(alloc: Global, pieces: &Pieces<Bit>) -> Result<Words, NoMemory>
    ensures { IfOk result (IsWholeOf pieces.now) }
{
    match only_pixel(pieces) {
        Some(is_set) => {
            let place = pieces.place();
            Words::filled(alloc, place.width, place.height, is_set)
        }
        None => laid(alloc, pieces),
    }
}

/// The window of a set.
fn of_set(alloc: Global, pieces: &Pieces<Bit>) -> Result<Window<Bit>, NoMemory>
    ensures { IfOk result (IsJoined pieces.now) }
{
    if let Some(window) = pieces.shared()? {
        return Ok(window);
    }
    let (width, height, place) = (pieces.frame_width(), pieces.frame_height(), pieces.place());
    // for what holds of all pieces
    let _pieces = pieces.pieces();
    let words = pixels_of(alloc, pieces)?;
    Ok(Window::new(width, height, place, Plane::of_words(words)))
}

/// The window, put together. Where one piece is the window, it is one more owner of that piece's samples; else it has
/// samples of its own.
pub fn assemble(alloc: Global, window: &SharedWindow) -> Result<AnyWindow, NoMemory>
    ensures { IfOk result (λ w. w ≡ window.now) }
{
    match window.view() {
        PiecesView::Bits(pieces) => {
            let joined = of_set(alloc, pieces)?;
            Ok(AnyWindow::bits(joined))
        }
        PiecesView::Grey8(pieces, maxval) => {
            let joined = of_levels(alloc, pieces)?;
            Ok(AnyWindow::grey8(joined, maxval))
        }
        PiecesView::Grey16(pieces, maxval) => {
            let joined = of_levels(alloc, pieces)?;
            Ok(AnyWindow::grey16(joined, maxval))
        }
    }
}
