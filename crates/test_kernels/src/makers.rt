//! Rectangles that are cut out of planes, where memory was refused before.

use mw_model::{NoMemory, Rect};
use mw_pixel::Plane;
use mw_tile::{Window, cut};
use std::alloc::Global;
use std::process::Abort;

/// Three columns and two rows.
fn six_words(rt: &impl Abort, alloc: Global) -> Plane<u16> {
    let words = [100u16, 200, 300, 400, 500, 600];
    let samples = once_more!(rt, words.to_vec(alloc));
    assert!(rt; samples.len() == 6);
    Plane::new(3, 2, samples)
}

const PLACE: Rect = Rect {
    x: 1,
    y: 0,
    width: 2,
    height: 2,
};

fn part_of(rt: &impl Abort, alloc: Global, plane: &Plane<u16>) -> Result<Plane<u16>, NoMemory> {
    assert!(rt; plane.width() == 3 && plane.height() == 2);
    cut(alloc, plane, PLACE)
}

fn window_of(rt: &impl Abort, alloc: Global, plane: &Plane<u16>) -> Result<Window<u16>, NoMemory> {
    assert!(rt; plane.width() == 3 && plane.height() == 2);
    Window::cut(alloc, plane, PLACE)
}

#[test]
fn rectangles_are_cut(rt: HostRuntime) {
    let plane = six_words(&rt, rt.alloc());
    let part = once_more!(&rt, part_of(&rt, rt.alloc(), &plane));
    assert!(rt; part.width() == 2 && part.height() == 2);
    assert_eq!(rt; part.samples(), [200, 300, 500, 600].as_slice());
    let window = once_more!(&rt, window_of(&rt, rt.alloc(), &plane));
    assert!(rt; window.frame_width() == 3 && window.frame_height() == 2);
    assert_eq!(rt; window.place(), PLACE);
    assert_eq!(rt; window.samples(), [200, 300, 500, 600].as_slice());
}
