//! Operations by the reference.

use mw_model::{FlatOp, NoMemory, Offset};
use mw_reference::ReferenceImage;
use std::alloc::Global;

/// The image that the flat operation makes.
pub(crate) fn by_reference(
    alloc: Global,
    op: &FlatOp,
    image: &ReferenceImage,
    b: &[Offset],
    c: &[Offset],
) -> Result<ReferenceImage, NoMemory> {
    match op {
        FlatOp::Erode(_, _) => mw_reference::erosion(alloc, image, b),
        FlatOp::Dilate(_, _) => mw_reference::dilation(alloc, image, b),
        FlatOp::Opening(_, _) => mw_reference::opening(alloc, image, b),
        FlatOp::Closing(_, _) => mw_reference::closing(alloc, image, b),
        FlatOp::Gradient(_, _) => mw_reference::gradient(alloc, image, b),
        FlatOp::WhiteTopHat(_, _) => mw_reference::white_top_hat(alloc, image, b),
        FlatOp::BlackTopHat(_, _) => mw_reference::black_top_hat(alloc, image, b),
        FlatOp::Rank(_, _, k) => mw_reference::rank(alloc, image, b, *k),
        FlatOp::Threshold(_, k) => mw_reference::threshold(alloc, image, *k),
        FlatOp::HitMiss(_, _, _) => mw_reference::hit_or_miss(alloc, image, b, c),
    }
}
