//! What the reference makes of a call.

use crate::given::{Call, Figure, Way};
use mw_model::{NoMemory, Offset};
use mw_reference::ReferenceImage;
use std::alloc::Global;
use std::process::Abort;

/// How far a place lies from the origin.
fn apart(rt: &impl Abort, place: u32, origin: u32) -> i16 {
    let apart = i64::from(place) - i64::from(origin);
    i16::try_from(apart).ok().expect(rt, "a nearer pixel")
}

fn push(rt: &impl Abort, offsets: &mut Vec<Offset>, offset: Offset) {
    offsets.push(offset).ok().expect(rt, "memory");
}

/// The offsets of an element, as the reference takes them.
pub(crate) fn offsets(rt: &impl Abort, alloc: Global, b: Figure<'_>) -> Vec<Offset> {
    let (pixels, (width, height), (origin_x, origin_y)) = b;
    let mut offsets = Vec::new(alloc);
    for y in 0..height {
        for x in 0..width {
            let at = y as usize * width as usize + x as usize;
            if pixels.get(at).copied().unwrap_or(0) != 0 {
                let (dx, dy) = (apart(rt, x, origin_x), apart(rt, y, origin_y));
                push(rt, &mut offsets, Offset { dx, dy });
            }
        }
    }
    offsets
}

/// A rank or an operator of one step.
fn by_one_step(
    alloc: Global,
    call: Call<'_>,
    image: &ReferenceImage,
    b: &[Offset],
) -> Result<ReferenceImage, NoMemory> {
    match call.operation {
        0 => mw_reference::erosion(alloc, image, b),
        1 => mw_reference::dilation(alloc, image, b),
        4 => mw_reference::gradient(alloc, image, b),
        _ => mw_reference::rank(alloc, image, b, call.k),
    }
}

fn flat(
    alloc: Global,
    call: Call<'_>,
    image: &ReferenceImage,
    b: &[Offset],
) -> Result<ReferenceImage, NoMemory> {
    match call.operation {
        2 => mw_reference::opening(alloc, image, b),
        3 => mw_reference::closing(alloc, image, b),
        5 => mw_reference::white_top_hat(alloc, image, b),
        6 => mw_reference::black_top_hat(alloc, image, b),
        _ => by_one_step(alloc, call, image, b),
    }
}

fn set(
    alloc: Global,
    call: Call<'_>,
    image: &ReferenceImage,
    b: &[Offset],
) -> Result<ReferenceImage, NoMemory> {
    let count = u16::from(u8::try_from(call.k).unwrap_or(0));
    match call.way {
        Way::Threshold => mw_reference::threshold(alloc, image, call.k),
        Way::Skeleton => mw_reference::skeleton(alloc, image, b, count),
        _ => mw_reference::restoration(alloc, image, b, count),
    }
}

fn by_offsets(
    alloc: Global,
    call: Call<'_>,
    image: &ReferenceImage,
    b: &[Offset],
    miss: &[Offset],
) -> Result<ReferenceImage, NoMemory> {
    match call.way {
        Way::Flat | Way::Rows => flat(alloc, call, image, b),
        Way::Hits => mw_reference::hit_or_miss(alloc, image, b, miss),
        _ => set(alloc, call, image, b),
    }
}

/// The image or the set that is wanted; of rows, all of them.
pub(crate) fn wanted(
    rt: &impl Abort,
    alloc: Global,
    call: Call<'_>,
    image: &ReferenceImage,
) -> ReferenceImage {
    let (b, miss) = (
        offsets(rt, alloc, call.element),
        offsets(rt, alloc, call.miss),
    );
    match by_offsets(alloc, call, image, &b, &miss) {
        Ok(image) => image,
        Err(NoMemory) => panic!(rt; "memory"),
    }
}

/// The volumes of a spectrum.
pub(crate) fn volumes(
    rt: &impl Abort,
    alloc: Global,
    call: Call<'_>,
    image: &ReferenceImage,
) -> Vec<u64> {
    let b = offsets(rt, alloc, call.element);
    match mw_reference::spectrum(alloc, image, &b, call.k) {
        Ok(volumes) => volumes,
        Err(NoMemory) => panic!(rt; "memory"),
    }
}
