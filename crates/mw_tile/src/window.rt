//! Samples of a rectangle of a frame.

ghost use Rattle.std.specs.Prelude.{◌≡◌, ◌↔◌, ◌+◌, ◌*◌, ◌<◌, ◌≤◌, IsTrue, length, slice_range, IfOk};
ghost use Rattle.std.specs.Arc.{arc_value};
ghost use Rattle.mw_model.specs.Rectangles.{IsWithin};
ghost use Rattle.mw_tile.specs.Windows.{IsCut};
ghost use Rattle.mw_tile.specs.Cuts.{stood_at, view_of, whole_of};

use crate::cuts::cut;
use mw_grid::whole_frame;
use mw_model::{NoMemory, Rect};
use mw_pixel::{Grey, HeldPlane, Planar, Plane};
use std::alloc::Global;
use std::marker::Model;
use std::sync::Arc;

/// The samples of a rectangle of a frame, with the sides of that frame. They stand by rows.
#[derive(Drop)]
pub struct Window<P: Planar> {
    frame_width: u32,
    frame_height: u32,
    place: Rect,
    held: HeldPlane<P>,
}

impl<P: Planar> Model for Window<P> {
    ghost use Rattle.std.specs.Prelude.{◌≡◌};
    ghost use Rattle.mw_model.specs.Rectangles.{IsWithin};
    ghost use Rattle.mw_model.specs.Windows.{View};
    ghost use Rattle.mw_tile.specs.Cuts.{view_of};

    ghost Value = { View P };

    ghost view = { λ a. view_of a.frame_width a.frame_height a.place a.held.cells };

    ghost invariant = { λ a. (a.held.width ≡ a.place.width) × (a.held.height ≡ a.place.height) × IsWithin a.place a.frame_width a.frame_height };
}

impl<P: Planar> Window<P> {
    /// A window with samples of its own.
    pub fn new(frame_width: u32, frame_height: u32, place: Rect, plane: Plane<P>) -> Window<P>
        requires within { IsWithin place frame_width frame_height }
        requires width { plane.width ≡ place.width }
        requires height { plane.height ≡ place.height }
        ensures { result ≡ view_of frame_width frame_height place plane.cells }
    {
        Window {
            frame_width,
            frame_height,
            place,
            held: HeldPlane::alone(plane),
        }
    }

    /// The window of a rectangle of the plane.
    pub fn cut(alloc: Global, plane: &Plane<P>, place: Rect) -> Result<Window<P>, NoMemory>
        requires { IsWithin place plane.now.width plane.now.height }
        ensures place { IfOk result (λ w. w.place ≡ place) }
        ensures cut { IfOk result (λ w. IsCut w plane.now) }
    {
        let part = cut(alloc, plane, place)?;
        Ok(Window::new(plane.width(), plane.height(), place, part))
    }

    /// The window that has the whole plane.
    pub fn whole(plane: Plane<P>) -> Window<P>
        ensures place { result.place ≡ whole_of plane }
        ensures cut { IsCut result plane }
    {
        Window::of_held(HeldPlane::alone(plane))
    }

    /// The window that has the whole plane, as one of its owners.
    pub fn sharing(plane: Arc<Plane<P>>) -> Window<P>
        ensures value { result ≡ stood_at (arc_value plane) (whole_of (arc_value plane)) (arc_value plane) }
        ensures cut { IsCut result (arc_value plane) }
    {
        Window::of_held(HeldPlane::sharing(plane))
    }

    /// The window of a rectangle of a larger frame, as one of the owners of its samples.
    pub fn standing(
        frame_width: u32,
        frame_height: u32,
        place: Rect,
        plane: Arc<Plane<P>>,
    ) -> Window<P>
        requires within { IsWithin place frame_width frame_height }
        requires width { (arc_value plane).width ≡ place.width }
        requires height { (arc_value plane).height ≡ place.height }
        ensures { result ≡ view_of frame_width frame_height place (arc_value plane).cells }
    {
        Window {
            frame_width,
            frame_height,
            place,
            held: HeldPlane::sharing(plane),
        }
    }

    fn of_held(held: HeldPlane<P>) -> Window<P>
        ensures value { result ≡ stood_at held (whole_of held) held }
        ensures cut { IsCut result held }
    {
        let plane = held.plane();
        let (width, height) = (plane.width(), plane.height());
        Window {
            frame_width: width,
            frame_height: height,
            place: whole_frame(width, height),
            held,
        }
    }

    /// The columns of the frame.
    pub fn frame_width(&self) -> u32
        ensures { result ≡ self.now.frame_width }
    {
        self.frame_width
    }

    /// The rows of the frame.
    pub fn frame_height(&self) -> u32
        ensures { result ≡ self.now.frame_height }
    {
        self.frame_height
    }

    /// The rectangle of the frame that the window has.
    pub fn place(&self) -> Rect
        ensures value { result ≡ self.now.place }
        ensures within { IsWithin result self.now.frame_width self.now.frame_height }
    {
        self.place
    }

    /// The samples, whoever else owns them.
    pub fn plane(&self) -> &Plane<P>
        ensures width { result.now.width ≡ self.now.place.width }
        ensures height { result.now.height ≡ self.now.place.height }
        ensures cells { result.now.cells ≡ self.now.cells }
    {
        // for its sides
        let _place = self.place;
        self.held.plane()
    }

    /// Whether both windows have the same place of frames with the same sides, and the same samples.
    pub fn same(&self, other: &Window<P>) -> bool
        ensures { IsTrue result ↔ (self.now ≡ other.now) }
    {
        self.frame_width == other.frame_width
            && self.frame_height == other.frame_height
            && self.place == other.place
            && self.held.plane().same(other.held.plane())
    }
}

impl<P: Grey> Window<P> {
    /// All samples, by rows.
    pub fn samples(&self) -> &[P]
        ensures value { result.now ≡ self.now.cells }
        ensures size { length self.now.cells ≡ self.now.place.height * self.now.place.width }
    {
        self.held.plane().samples()
    }

    /// The samples of a row, counted from the window's first.
    pub fn row(&self, y: u32) -> &[P]
        requires { y < self.now.place.height }
        ensures value { result.now ≡ slice_range self.now.cells (y * self.now.place.width) (y * self.now.place.width + self.now.place.width) }
        ensures length { length result.now ≡ self.now.place.width }
    {
        self.held.plane().row(y)
    }
}
