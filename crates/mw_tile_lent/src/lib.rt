//! Windows whose samples stand in a caller's array. Contracts see one as the `View` that they see a `Window` as, so a kernel
//! that takes a `Lent` has the clauses of one that takes a window, and no sample is copied for it.
//!
//! ```text
//! // the whole of a caller's image
//! let lent = Lent::new(width, height, whole_frame(width, height), &samples);
//! ```
#![tactic(auto)]

mod lent;

pub use lent::{Lent, lend};
pub use mw_model::Rect;
