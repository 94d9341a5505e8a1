//! Tasks that no core gave: erosions of five samples.

use mw_model::{OffsetBox, Rect, TaskId};
use mw_pixel::Plane;
use mw_step::run;
use mw_step_task::{Step, TileDone, Work};
use mw_tile_pieces::{Pieces, SharedWindow};
use std::alloc::Global;
use std::process::Abort;
use std::sync::Arc;

/// The offsets of the bar, which is a full rectangle.
const ACROSS: OffsetBox = OffsetBox {
    x0: -1,
    x1: 1,
    y0: 0,
    y1: 0,
};

const PLACE: Rect = Rect {
    x: 0,
    y: 0,
    width: 5,
    height: 1,
};

pub(crate) fn task(ticket: u32, step: u32, tile: u32) -> TaskId {
    TaskId { ticket, step, tile }
}

/// The row that the tests load, but for its last sample.
fn samples(alloc: Global, last: u8) -> Option<Vec<u8>> {
    [3, 1, 4, 1, last].to_vec(alloc).ok()
}

fn window(alloc: Global, samples: Vec<u8>) -> Option<SharedWindow> {
    if samples.len() != 5 {
        return None;
    }
    let plane = Arc::new(alloc, Plane::new(5, 1, samples)).ok()?;
    let pieces = Pieces::of_plane(alloc, plane, PLACE).ok()?;
    Some(SharedWindow::grey8(pieces, 9))
}

fn work_on(alloc: Global, task: TaskId, window: SharedWindow) -> Option<Work> {
    let mut windows = Vec::with_capacity(alloc, 1).ok()?;
    windows.push_reserved(window);
    Work::new(task, PLACE, Step::ErodeBox(ACROSS), windows)
}

fn tried(alloc: Global, task: TaskId, last: u8) -> Option<Work> {
    work_on(alloc, task, window(alloc, samples(alloc, last)?)?)
}

/// The erosion of the row with this last sample, under these numbers.
pub(crate) fn work(rt: &impl Abort, alloc: Global, task: TaskId, last: u8) -> Work {
    match tried(alloc, task, last) {
        Some(work) => work,
        None => tried(alloc, task, last).expect(rt, "memory"),
    }
}

/// The work of a task by hand, with its result.
pub(crate) fn done(rt: &impl Abort, alloc: Global, task: TaskId, last: u8) -> TileDone {
    match run(alloc, work(rt, alloc, task, last)) {
        Ok(done) => done,
        Err(_) => run(alloc, work(rt, alloc, task, last))
            .ok()
            .expect(rt, "memory"),
    }
}
