//! What kernels make of rows where they stand in a caller's array, written into the caller's rows: medians under squares, the least
//! and the greatest under elements of any shape, and by these and by full rectangles openings, closings, gradients and top-hats. No
//! window is copied, no plane filled, and nothing copied out.
//!
//! ```text
//! if let Some(middle) = middle_of(Rule::LeastBox(b), f, 0, 480) {
//!     if put_middle(alloc, middle, &mut out)? { .. }      // these rows of the erosion stand
//! }
//! let opening = Composite::InTurn(Rule::Least(&element), Rule::Greatest(&turned));
//! let to = put_composite(alloc, opening, f, 0, 480, &mut out)?;      // the rows of the opening before `to` stand
//! if put_two_steps(alloc, Rule::LeastBox(b), Rule::GreatestBox(turned), f, &mut out)? { .. }      // the opening stands
//! if put_difference(alloc, Rule::GreatestBox(b), Rule::LeastBox(b), f, &mut out)? { .. }      // the gradient stands
//! ```
#![tactic(auto)]

mod by_strips;
mod composed;
mod composites;
mod differences;
mod filters;
mod gradients;
mod in_place;
mod in_turn;
mod lacking;
mod lendable;
mod recipes;
mod rules;
mod slides;
mod standing;
mod subtracting;
mod two_steps;

pub use by_strips::put_composite;
pub use composites::Composite;
pub use filters::{put_difference, put_two_steps, put_what_is_added, put_what_is_taken};
pub use in_place::{Middle, middle_of, put_middle};
pub use lendable::Lendable;
pub use mw_c_arrays::ArrayImage;
pub use mw_element::Element;
pub use mw_model::NoMemory;
pub use rules::Rule;
