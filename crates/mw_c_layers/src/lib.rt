//! What flat operators of a caller's image are made of, and strips of it. A layer is an image, what a step makes of one, or what a second
//! step makes of what a first makes; a formula is a layer, or the difference of two. Of either the rows of any strip can be made
//! alone: each step makes of the one before it only the rows that it looks at. `mw_c_strips` calls it strip by strip, so that what is
//! read and made stays in the cache.
//!
//! ```text
//! let opened = Layer::Twice(Rule::GreatestBox(turned), Rule::LeastBox(b), f);
//! let rows = strip_of(alloc, Formula::Less(Layer::Itself(f), opened), strip)?;     // of the top-hat
//! ```
#![tactic(auto)]

mod layers;
mod origins;
mod rows;
mod strips;
mod windows;

pub use layers::{Formula, Layer, origin_of};
pub use mw_c_arrays::ArrayImage;
pub use mw_c_lent::Rule;
pub use mw_model::NoMemory;
pub use origins::Origin;
pub use strips::{by_rule, strip_of};
