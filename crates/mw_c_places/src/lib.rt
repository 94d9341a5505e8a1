//! What a step of a plan makes at one place of an image, by the definitions alone and without memory: slow, and never refused. So
//! rows of a caller's array can be made to the end where memory is refused behind the first of them. `mw_c_strips` calls it for
//! such rows alone.
//!
//! What is looked at gives its levels one at a time: an image in a caller's array, one of our own, or what a first step makes of the
//! first, which then stands nowhere.
//!
//! ```text
//! let level = made_at(Rule::LeastBox(b), &f, 12, 34);     // of the erosion, in column 12 of row 34
//! let between = Between { rule: Rule::LeastBox(b), f };
//! let level = made_at(Rule::GreatestBox(turned), &between, 12, 34);     // of the opening
//! ```
#![tactic(auto)]

mod boxes;
mod by_pixel;
mod levels;

pub use by_pixel::made_at;
pub use levels::{Between, Levels};
