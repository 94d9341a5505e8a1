//! Medians by vectors: in the middle of a frame, where its sides and its first and last rows cut the square, and in its corners,
//! where the rank is made alone; and of frames so narrow that vectors go along their columns.

use crate::rising::{Rising, square, window_of};
use mw_model::{NoMemory, Offset};
use mw_pixel::Plane;
use mw_rank_medians::{Vectored, median_of_grey};
use mw_tile::Window;
use std::alloc::Global;
use std::process::Abort;

fn frame(width: u32, height: u32, by_rows: bool, step: u16, reach: u32) -> Rising {
    let k = if reach == 1 { 5 } else { 13 };
    Rising {
        width,
        height,
        by_rows,
        step,
        reach,
        k,
    }
}

/// Frames of which all rows or columns but a few show the whole square, of two rows, which never do, and narrow ones.
fn frames() -> [Rising; 6] {
    [
        frame(40, 9, false, 6, 1),
        frame(60, 20, true, 12, 2),
        frame(30, 2, false, 6, 1),
        frame(40, 2, false, 6, 2),
        frame(6, 30, true, 6, 1),
        frame(5, 20, false, 40, 2),
    ]
}

fn median<P: Vectored>(
    rt: &impl Abort,
    alloc: Global,
    window: &Window<P>,
    offsets: &[Offset],
    case: Rising,
) -> Result<Option<Plane<P>>, NoMemory> {
    assert!(rt; offsets.len() < 65536);
    median_of_grey(alloc, window, offsets, case.k, case.frame())
}

fn are_medians<P: Vectored>(rt: &impl Abort, alloc: Global, case: Rising) {
    let window = window_of::<P>(rt, alloc, case);
    let offsets = square(rt, alloc, case);
    let made = once_more!(rt, median(rt, alloc, &window, &offsets, case));
    case.is_ranked(rt, &made.expect(rt, "medians by vectors"));
}

/// Of levels of one byte, and of 16 bits.
#[test]
fn medians_of_narrow_and_wide_frames(rt: HostRuntime) {
    for case in frames() {
        are_medians::<u8>(&rt, rt.alloc(), case);
        let step = case.step.saturating_mul(256);
        are_medians::<u16>(&rt, rt.alloc(), Rising { step, ..case });
    }
}
