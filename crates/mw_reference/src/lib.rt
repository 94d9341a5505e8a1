//! The reference: each operator in the slowest honest way, one pixel after the other. Its contracts are the
//! definitions, so it is what a test compares a fast body with. Of the library for C, operators on grains go by it under elements without a
//! kernel; no part of the program stands on it.
//!
//! An image is a `ReferenceImage`, and an element the list of its offsets. What makes an image takes the allocator first:
//!
//! ```text
//! let image = ReferenceImage::new(Kind::Grey, 5, 1, 9, samples);
//! let opened = mw_reference::opening(alloc, &image, &[Offset { dx: -1, dy: 0 }, Offset { dx: 0, dy: 0 }])?;
//! ```
#![tactic(auto)]

mod elements;
mod flat;
mod images;
mod iterated;
mod order;
mod pixels;

pub use flat::{
    black_top_hat, closing, complement, dilation, erosion, gradient, hit_or_miss, intersection,
    minus, opening, set_hit_or_miss, threshold, white_top_hat,
};
pub use images::ReferenceImage;
pub use iterated::{
    copy, dilated_back_times, eroded_times, level_set, restoration, skeleton, spectrum, union,
    volume,
};
pub use order::rank;
