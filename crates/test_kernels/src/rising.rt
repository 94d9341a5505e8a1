//! Frames whose levels rise by one step with each column alone, or with each row alone. So the samples under a square stand in the
//! order of their columns or rows, each as often as it is seen, and ranks are known by their place.

use mw_grid::whole_frame;
use mw_model::{NoMemory, Offset, Rect};
use mw_pixel::{Grey, Plane};
use mw_tile::Window;
use std::alloc::Global;
use std::process::Abort;

/// Such a frame, and a rank under the square that reaches so far to each side.
#[derive(Clone, Copy)]
pub(crate) struct Rising {
    pub(crate) width: u32,
    pub(crate) height: u32,
    pub(crate) by_rows: bool,
    pub(crate) step: u16,
    pub(crate) reach: u32,
    pub(crate) k: u32,
}

impl Rising {
    pub(crate) fn frame(self) -> Rect {
        whole_frame(self.width, self.height)
    }

    fn level(self, place: u32) -> u16 {
        let place = u16::try_from(place).unwrap_or(u16::MAX);
        place.saturating_mul(self.step)
    }

    /// The level that the rank has at a place.
    fn rank_at(self, x: u32, y: u32) -> u16 {
        let (along, across, length, breadth) = if self.by_rows {
            (y, x, self.height, self.width)
        } else {
            (x, y, self.width, self.height)
        };
        let (first, last) = seen(along, self.reach, length);
        let (from, to) = seen(across, self.reach, breadth);
        let times = to.saturating_sub(from).saturating_add(1);
        let passed = self.k.saturating_sub(1) / times.max(1);
        self.level(first.saturating_add(passed).min(last))
    }

    /// Stops where the plane has other levels than the ranks.
    pub(crate) fn is_ranked<P: Grey>(self, rt: &impl Abort, made: &Plane<P>) {
        assert!(rt; made.width() == self.width && made.height() == self.height);
        for y in 0..self.height {
            for x in 0..self.width {
                assert!(rt; made.at(x, y).value() == self.rank_at(x, y));
            }
        }
    }
}

/// The first and the last of so many places that are seen from one, within a reach of it.
fn seen(place: u32, reach: u32, count: u32) -> (u32, u32) {
    let last = place.saturating_add(reach).min(count.saturating_sub(1));
    (place.saturating_sub(reach), last)
}

fn samples_of<P: Grey>(alloc: Global, case: Rising) -> Result<Vec<P>, NoMemory> {
    let mut samples = Vec::new(alloc);
    for y in 0..case.height {
        for x in 0..case.width {
            let level = case.level(if case.by_rows { y } else { x });
            samples.push(P::of(level).unwrap_or(P::TOP))?;
        }
    }
    Ok(samples)
}

/// The window that has the whole frame.
pub(crate) fn window_of<P: Grey>(rt: &impl Abort, alloc: Global, case: Rising) -> Window<P> {
    let samples = once_more!(rt, samples_of::<P>(alloc, case));
    assert!(rt; samples.len() == case.height as usize * case.width as usize);
    Window::whole(Plane::new(case.width, case.height, samples))
}

fn offsets_of(alloc: Global, reach: u32) -> Result<Vec<Offset>, NoMemory> {
    let reach = reach.min(9) as i16;
    let mut offsets = Vec::new(alloc);
    for dy in -reach..reach + 1 {
        for dx in -reach..reach + 1 {
            offsets.push(Offset { dx, dy })?;
        }
    }
    Ok(offsets)
}

/// The offsets of the square.
pub(crate) fn square(rt: &impl Abort, alloc: Global, case: Rising) -> Vec<Offset> {
    once_more!(rt, offsets_of(alloc, case.reach))
}
