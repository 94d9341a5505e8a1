//! Images and elements that stand in a caller's arrays: what they show; the first thing that is wrong with them, which is
//! found without memory; and images read from arrays and written into them.
//!
//! ```text
//! let f = Grey8 { samples: &bytes, width: 640, height: 480, maxval: 255 };
//! match f.fault() {
//!     Some(code) => ..,                   // the first case that holds: SIZE, LENGTH, MAXVAL, SAMPLE
//!     None => f.image(alloc)?,            // an image within the limits of a file
//! }
//! put_bytes(&image, &mut out);            // a byte a sample, for a set 1 or 0
//! ```
#![tactic(auto)]

mod arrays;
mod cases;
mod images;
pub mod laws;
mod packing;
mod sources;
mod tests;
mod unpacking;
mod writing;

pub use arrays::{Bitmap, Grey8, Grey16, Set};
pub use cases::{first_of, when};
pub use mw_model::{Code, NoMemory};
pub use sources::ArrayImage;
pub use writing::{put_bytes, put_words};
