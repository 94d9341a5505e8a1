//! Windows of one type of samples, in pieces.

ghost use Rattle.std.specs.Prelude.{◌≡◌};

use crate::Piece;
use mw_grid::whole_frame;
use mw_model::{NoMemory, Rect};
use mw_tile::Window;
use mw_tile::pixel::{Planar, Plane};
use std::alloc::Global;
use std::marker::Model;
use std::sync::Arc;

/// A window of a frame as pieces of it, which together have each place of the window.
#[derive(Drop)]
pub struct Pieces<P: Planar> {
    frame_width: u32,
    frame_height: u32,
    place: Rect,
    pieces: Vec<Piece<P>>,
}

impl<P: Planar> Model for Pieces<P> {
    ghost use Rattle.mw_tile_pieces.specs.Patches.{joint, Joint, IsJoint};

    ghost Value = { Joint P };

    ghost view = { λ a. joint a.frame_width a.frame_height a.place a.pieces.items };

    ghost invariant = { λ a. IsJoint (joint a.frame_width a.frame_height a.place a.pieces.items) };
}

impl<P: Planar> Pieces<P> {
    ghost use Rattle.std.specs.Prelude.{◌≡◌, [], ◌∷◌, IfOk, IfSome};
    ghost use Rattle.std.specs.Arc.{arc_value};
    ghost use Rattle.mw_model.specs.Rectangles.{IsWithin};
    ghost use Rattle.mw_tile_pieces.specs.Patches.{joint, IsFull, IsInside, IsJoined, IsJoint, IsWholeOf, ShowsFrame};

    /// The window that these pieces make.
    pub fn new(frame_width: u32, frame_height: u32, place: Rect, pieces: Vec<Piece<P>>) -> Pieces<P>
        requires { IsJoint (joint frame_width frame_height place pieces.items) }
        ensures { result ≡ joint frame_width frame_height place pieces.items }
    {
        Pieces {
            frame_width,
            frame_height,
            place,
            pieces,
        }
    }

    /// The window of a rectangle that lies in one piece.
    pub fn one(
        alloc: Global,
        frame_width: u32,
        frame_height: u32,
        place: Rect,
        piece: Piece<P>,
    ) -> Result<Pieces<P>, NoMemory>
        requires frame { IsWithin piece.place frame_width frame_height }
        requires inside { IsInside place piece.place }
        requires full { IsFull piece }
        ensures { IfOk result (λ r. r ≡ joint frame_width frame_height place (piece ∷ [])) }
    {
        let mut pieces = Vec::with_capacity(alloc, 1)?;
        pieces.push(piece)?;
        Ok(Pieces::new(frame_width, frame_height, place, pieces))
    }

    /// The window of a rectangle of a whole frame that is there as one plane.
    pub fn of_plane(alloc: Global, plane: Arc<Plane<P>>, place: Rect) -> Result<Pieces<P>, NoMemory>
        requires { IsWithin place (arc_value plane).width (arc_value plane).height }
        ensures place { IfOk result (λ r. r.place ≡ place) }
        ensures shows { IfOk result (ShowsFrame (arc_value plane)) }
    {
        let (width, height) = (plane.width(), plane.height());
        let piece = Piece::new(whole_frame(width, height), plane);
        let pieces = Pieces::one(alloc, width, height, place, piece)?;
        Ok(pieces)
    }

    /// The columns of the frame.
    pub fn frame_width(&self) -> u32
        ensures { result ≡ self.now.frame_width }
    {
        self.frame_width
    }

    /// The rows of the frame.
    pub fn frame_height(&self) -> u32
        ensures { result ≡ self.now.frame_height }
    {
        self.frame_height
    }

    /// The rectangle of the frame that the window has.
    pub fn place(&self) -> Rect
        ensures { result ≡ self.now.place }
    {
        self.place
    }

    /// The pieces, in no order that is told.
    pub fn pieces(&self) -> &[Piece<P>]
        ensures value { result.now ≡ self.now.pieces }
        ensures joint { IsJoint self.now }
    {
        &self.pieces
    }

    /// One more owner of the plane of the piece that is the window, if one is.
    fn whole(&self) -> Result<Option<Arc<Plane<P>>>, NoMemory>
        ensures { IfOk result (λ o. IfSome o (λ p. IsWholeOf self.now (arc_value p))) }
    {
        match self.pieces() {
            [piece] => {
                if piece.place() == self.place() {
                    Ok(Some(piece.owner()?))
                } else {
                    Ok(None)
                }
            }
            _ => Ok(None),
        }
    }

    /// The window as one more owner of the samples of its only piece, where one piece is the window.
    pub(crate) fn shared(&self) -> Result<Option<Window<P>>, NoMemory>
        ensures { IfOk result (λ o. IfSome o (IsJoined self.now)) }
    {
        let (width, height, place) = (self.frame_width(), self.frame_height(), self.place());
        // for what holds of all pieces
        let _pieces = self.pieces();
        if let Some(plane) = self.whole()? {
            return Ok(Some(Window::standing(width, height, place, plane)));
        }
        Ok(None)
    }
}
