//! What tests of a core and of a board look at: the images that are handed out, each in one piece.
//!
//! ```text
//! if let FetchedValue::Image(plate) = core.fetch(name)?.value {
//!     let text = write(alloc, &whole_image(alloc, &plate)?)?;
//! }
//! ```
#![tactic(auto)]

mod images;

pub use images::whole_image;
