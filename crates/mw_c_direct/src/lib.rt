//! Operations on whole images, in one thread: the steps of a plan one after the other, each on whole planes. There are no
//! tiles, no machine and no names. A step is made when no later one can be, and its plane is kept exactly as long as a step
//! that is not made yet reads it. So a skeleton of any number of levels has five planes at most, and three of them are sets.
//!
//! ```text
//! let opening = Op::Flat(FlatOp::Opening(n, n));      // the names in an operation are not looked at
//! match apply(alloc, &opening, &image, Some(&b), None)? {
//!     Made::Image(opened) => ..,
//!     Made::Curve(curve) => ..,                       // of a spectrum
//! }
//! ```
#![tactic(auto)]

mod applying;
mod making;
mod order;
mod running;
mod seeing;
mod spent;

pub use applying::{Made, apply};
pub use mw_element::Element;
pub use mw_gran::{Curve, PlanFault};
pub use mw_model::{FlatOp, GranOp, Op};
pub use mw_pixel::Image;
