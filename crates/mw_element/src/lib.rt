//! Structuring elements: an element exactly where the bytes are a plain bitmap with its origin inside, else the one
//! refusal; the same of a bitmap that is there already; and what kernels and plans ask of an element.
//!
//! ```text
//! let cross = Element::parse(alloc, b"P1\n3 3\n010\n111\n010\n", 1, 1)?;
//! let turned = cross.reflect(alloc)?;
//! let offsets = turned.offsets();
//! ```
#![tactic(auto)]

mod bitmaps;
mod element;
mod fault;
pub mod laws;
mod offsets;
mod parsing;
mod runs;

pub use element::Element;
pub use fault::ElementFault;
pub use mw_model::{NoMemory, Offset, OffsetBox, Reach};

// What lower crates offer, for the crates above.
pub mod pixel {
    pub use mw_netpbm_plain::pixel::{Bit, Image, Plane};
}
