//! Samples, extrema of samples, planes of samples, and images. The plane of a set is held as words of 64 pixels, and
//! contracts see its samples 0 and 1.
//!
//! ```text
//! let plane = Plane::<u8>::filled(alloc, 640, 480, 0)?;
//! let image = Image::grey8(Arc::new(alloc, plane)?, 255);
//! let corner = image.sample(639, 479);
//! ```
#![tactic(auto)]

mod bit;
mod bit_words;
mod equal;
mod extremum;
mod holding;
mod image;
mod laws;
mod listed;
mod max;
mod min;
mod pixel;
mod planar;
mod plane;
mod samples;

pub use bit::Bit;
pub use equal::{Blocks, equal_rows};
pub use extremum::Extremum;
pub use holding::HeldPlane;
pub use image::{Image, SharedView, View};
pub use laws::samples_are_seen;
pub use listed::{Listed, copies};
pub use max::Max;
pub use min::Min;
pub use mw_model::{Kind, NoMemory, Shape};
pub use mw_pixel_words::Words;
pub use pixel::Pixel;
pub use planar::{Grey, Planar};
pub use plane::Plane;
pub use samples::Samples;

// What lower crates offer, for the crates above.
pub mod words {
    pub use mw_pixel_words::{Words, blended, funnel, repeated, stride, trimmed};
}
