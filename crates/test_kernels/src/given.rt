//! Windows that have the whole of pictures of one level, and tasks that read them.

ghost use Rattle.std.specs.Prelude.{◌≡◌};
ghost use Rattle.std.specs.Arc.{arc_value};

use mw_grid::whole_frame;
use mw_model::{Offset, Rect, TaskId};
use mw_pixel::{Bit, Planar, Plane};
use mw_step_task::{SharedWindow, Step, Work};
use mw_tile_pieces::Pieces;
use std::alloc::Global;
use std::process::Abort;
use std::sync::Arc;

/// The maxval of a picture and its level throughout. Of 1 it is a set, of 255 in bytes, else in words.
pub(crate) type Even = (u16, u16);

/// How many columns and rows a picture has.
pub(crate) type Sides = (u32, u32);

/// Three pixels in a row, from their middle.
pub(crate) const BAR: [Offset; 3] = [
    Offset { dx: -1, dy: 0 },
    Offset { dx: 0, dy: 0 },
    Offset { dx: 1, dy: 0 },
];

/// A rectangle by its upper left corner and its sides.
pub(crate) fn rect(x: u32, y: u32, width: u32, height: u32) -> Rect {
    Rect {
        x,
        y,
        width,
        height,
    }
}

/// The plane, which others can own too.
pub(crate) fn owned<P: Planar>(rt: &impl Abort, alloc: Global, plane: Plane<P>) -> Arc<Plane<P>>
    ensures { arc_value result ≡ plane }
{
    match Arc::new(alloc, plane) {
        Ok(plane) => plane,
        Err(_refused) => panic!(rt; "memory"),
    }
}

pub(crate) fn filled<P: Planar>(
    rt: &impl Abort,
    alloc: Global,
    sides: Sides,
    sample: P,
) -> Plane<P> {
    Plane::filled(alloc, sides.0, sides.1, sample).expect(rt, "memory")
}

/// The window that has the whole plane.
pub(crate) fn whole<P: Planar>(rt: &impl Abort, alloc: Global, plane: Plane<P>) -> Pieces<P> {
    let place = whole_frame(plane.width(), plane.height());
    Pieces::of_plane(alloc, owned(rt, alloc, plane), place).expect(rt, "memory")
}

fn even<P: Planar>(rt: &impl Abort, alloc: Global, sides: Sides, sample: P) -> Pieces<P> {
    whole(rt, alloc, filled(rt, alloc, sides, sample))
}

/// The window of a picture.
pub(crate) fn window(rt: &impl Abort, alloc: Global, sides: Sides, picture: Even) -> SharedWindow {
    let (maxval, level) = picture;
    match maxval {
        1 => SharedWindow::bits(even(rt, alloc, sides, Bit::new(level == 1))),
        255 => SharedWindow::grey8(even(rt, alloc, sides, (level & 255) as u8), 255),
        _ => SharedWindow::grey16(even(rt, alloc, sides, level), 65535),
    }
}

pub(crate) fn push(rt: &impl Abort, windows: &mut Vec<SharedWindow>, window: SharedWindow) {
    windows.push(window).ok().expect(rt, "memory");
}

/// A task for the whole frame of windows.
pub(crate) fn work(rt: &impl Abort, sides: Sides, step: Step, windows: Vec<SharedWindow>) -> Work {
    let task = TaskId {
        ticket: 7,
        step: 1,
        tile: 2,
    };
    let frame = whole_frame(sides.0, sides.1);
    Work::new(task, frame, step, windows).expect(rt, "the windows fit the step")
}
