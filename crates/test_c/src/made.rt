//! What is made by a call, beside what is wanted. Each stops where the answer is another than 0.

use crate::called::Called;
use crate::given::{Call, Way};
use crate::images::are_levels;
use mw_model::NoMemory;
use mw_pixel::{Pixel, copies};
use std::alloc::Global;
use std::process::Abort;

fn name(way: Way) -> &'static str {
    match way {
        Way::Flat => "flat",
        Way::Rows => "rows",
        Way::Hits => "hits",
        Way::Threshold => "threshold",
        Way::Skeleton => "skeleton",
        Way::Restoration => "restoration",
        Way::Spectrum => "spectrum",
    }
}

/// Stops with the call and its answer where something else was wanted of it.
pub(crate) fn expect(rt: &impl Abort, call: Call<'_>, answer: i32, is_so: bool) {
    let (operation, k, first) = (call.operation, call.k, call.first);
    let (width, height, maxval) = (call.width, call.height, call.maxval);
    assert!(rt;
        is_so,
        "{} {operation} {k} from {first}, {width} x {height} up to {maxval}: {answer}",
        name(call.way)
    );
}

/// So many samples, all the same.
pub(crate) fn even<P: Pixel>(rt: &impl Abort, alloc: Global, count: usize, sample: P) -> Vec<P> {
    match copies(alloc, count, sample) {
        Ok(samples) => samples,
        Err(NoMemory) => panic!(rt; "memory"),
    }
}

/// So many samples of an image.
pub(crate) fn image_made<P: Called>(
    rt: &impl Abort,
    alloc: Global,
    call: Call<'_>,
    f: &[P],
    count: usize,
) -> Vec<P> {
    let mut out = even(rt, alloc, count, P::mark());
    let answer = P::image(alloc, call, f, out.as_mut_slice());
    expect(rt, call, answer, answer == 0);
    out
}

/// So many pixels of a set, or marks of a skeleton.
pub(crate) fn set_made<P: Called>(
    rt: &impl Abort,
    alloc: Global,
    call: Call<'_>,
    f: &[P],
    count: usize,
) -> Vec<u8> {
    let mut out = even(rt, alloc, count, 77u8);
    let answer = P::set(alloc, call, f, out.as_mut_slice());
    expect(rt, call, answer, answer == 0);
    out
}

fn image_is<P: Called>(rt: &impl Abort, alloc: Global, call: Call<'_>, f: &[P], wanted: &[u16]) {
    let made = image_made(rt, alloc, call, f, wanted.len());
    expect(rt, call, 0, are_levels(&made, wanted));
}

fn set_is<P: Called>(rt: &impl Abort, alloc: Global, call: Call<'_>, f: &[P], wanted: &[u16]) {
    let made = set_made(rt, alloc, call, f, wanted.len());
    expect(rt, call, 0, are_levels(&made, wanted));
}

/// Stops where an image or a set is made that has other levels.
pub(crate) fn made_is<P: Called>(
    rt: &impl Abort,
    alloc: Global,
    call: Call<'_>,
    f: &[P],
    wanted: &[u16],
) {
    match call.way {
        Way::Flat | Way::Rows | Way::Hits => image_is(rt, alloc, call, f, wanted),
        _ => set_is(rt, alloc, call, f, wanted),
    }
}

/// The first places of an array.
pub(crate) fn part<T>(out: &mut [T], room: usize) -> &mut [T] {
    let room = room.min(out.len());
    let (front, _) = out.split_at_mut(room);
    front
}

/// Stops where a spectrum has other volumes, up to 33 of them.
pub(crate) fn volumes_are<P: Called>(
    rt: &impl Abort,
    alloc: Global,
    call: Call<'_>,
    f: &[P],
    wanted: &[u64],
) {
    let mut out = [77u64; 33];
    let made = part(&mut out, wanted.len());
    let answer = P::volumes(alloc, call, f, made);
    expect(rt, call, answer, answer == 0 && &*made == wanted);
}
