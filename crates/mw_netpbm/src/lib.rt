//! Netpbm files: an image exactly where the bytes are a file of one, else the one refusal; and the one text of an image.
//!
//! ```text
//! let image = mw_netpbm::read(alloc, b"P2\n5 1\n9\n3 1 4 1 5\n")?;
//! let text = mw_netpbm::write(alloc, &image)?;
//! ```
#![tactic(auto)]

mod blocks;
pub mod laws;
mod raw;
mod reader;
mod row_bytes;
mod writer;

pub use mw_model::NoMemory;
pub use mw_netpbm_plain::{
    BitmapFacts, BitmapFault, ReadFault, read_plain_bitmap, scan_plain_bitmap,
};
pub use reader::{read, read_owned};
pub use row_bytes::{RowBytes, header};
pub use writer::{Text, parts, write};
