//! The plain half of Netpbm: headers of all four formats, plain rasters (P1 and P2), and plain bitmaps. An element comes
//! from a plain bitmap, so `mw_element` calls this crate. `mw_netpbm` calls it for headers and plain rasters, and adds raw
//! rasters and writing. Nothing of those may come in here: what stands on elements would wait for their proofs.
//!
//! ```text
//! let facts = mw_netpbm_plain::scan_plain_bitmap(b"P1\n3 1\n101\n", 255)?;
//! let bitmap = mw_netpbm_plain::read_plain_bitmap(alloc, b"P1\n3 1\n101\n", 255)?;
//! ```
#![tactic(auto)]

mod bitmap;
mod fault;
mod head;
pub mod laws;
mod padding;
mod plain;
mod room;
mod sets;
mod short;
mod words;

pub use bitmap::{BitmapFacts, read_plain_bitmap, scan_plain_bitmap};
pub use fault::{BitmapFault, ReadFault};
pub use head::{check_limits, read_head};
pub use padding::padded;
pub use plain::{Places, samples};
pub use sets::set;

// What lower crates offer, for the crates above.
pub mod pixel {
    pub use mw_pixel::{Bit, Image, Listed, Planar, Plane, View, Words};
}
