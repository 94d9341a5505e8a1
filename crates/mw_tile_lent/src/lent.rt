//! Samples of a rectangle of a frame, which somebody else owns.

ghost use Rattle.std.specs.Prelude.{◌≡◌};

use mw_model::Rect;
use mw_tile::Window;
use mw_tile::pixel::{Grey, Pixel};
use std::marker::Model;

/// The samples of a rectangle of a frame, with the sides of that frame, where they stand by rows in an array.
#[derive(Drop)]
pub struct Lent<'a, P: Pixel> {
    frame_width: u32,
    frame_height: u32,
    place: Rect,
    samples: &'a [P],
}

impl<'a, P: Pixel> Model for Lent<'a, P> {
    ghost use Rattle.std.specs.Prelude.{◌≡◌, ◌*◌, length};
    ghost use Rattle.mw_model.specs.Rectangles.{IsWithin};
    ghost use Rattle.mw_model.specs.Windows.{View};
    ghost use Rattle.mw_tile.specs.Cuts.{view_of};

    ghost Value = { View P };

    ghost view = { λ a. view_of a.frame_width a.frame_height a.place a.samples.now };

    ghost invariant = { λ a. (length a.samples.now ≡ a.place.height * a.place.width) × IsWithin a.place a.frame_width a.frame_height };
}

impl<'a, P: Pixel> Lent<'a, P> {
    ghost use Rattle.std.specs.Prelude.{◌≡◌, ◌*◌, length};
    ghost use Rattle.mw_model.specs.Rectangles.{IsWithin};
    ghost use Rattle.mw_tile.specs.Cuts.{view_of};

    /// The window that has these samples in a place of the frame.
    pub fn new(frame_width: u32, frame_height: u32, place: Rect, samples: &'a [P]) -> Lent<'a, P>
        requires within { IsWithin place frame_width frame_height }
        requires size { length samples.now ≡ place.height * place.width }
        ensures { result ≡ view_of frame_width frame_height place samples.entry.now }
    {
        Lent {
            frame_width,
            frame_height,
            place,
            samples,
        }
    }

    /// The columns of the frame.
    pub fn frame_width(&self) -> u32
        ensures { result ≡ self.now.frame_width }
    {
        self.frame_width
    }

    /// The rows of the frame.
    pub fn frame_height(&self) -> u32
        ensures { result ≡ self.now.frame_height }
    {
        self.frame_height
    }

    /// The rectangle of the frame that the window has.
    pub fn place(&self) -> Rect
        ensures value { result ≡ self.now.place }
        ensures within { IsWithin result self.now.frame_width self.now.frame_height }
    {
        self.place
    }

    /// All samples, by rows.
    pub fn samples(&self) -> &'a [P]
        ensures value { result.now ≡ self.entry.now.cells }
        ensures size { length self.entry.now.cells ≡ self.entry.now.place.height * self.entry.now.place.width }
    {
        self.samples
    }
}

/// What a window has, lent.
pub fn lend<P: Grey>(window: &Window<P>) -> Lent<'_, P>
    ensures { result ≡ window.entry.now }
{
    Lent::new(
        window.frame_width(),
        window.frame_height(),
        window.place(),
        window.samples(),
    )
}
