//! Plans of few steps, as what strips of rows make of one image: one step, two in turn, a difference of two steps, or of the image and
//! two in turn. All plans of flat operators are so, since `mw_plan` says that they are; any other has no form. `mw_c_strips` picks by
//! the form what it runs.
//!
//! ```text
//! match form_of(&plan) {
//!     Some(Form::InTurn(first, second)) => ..,     // an opening or a closing
//!     Some(Form::Residue(Rest::Taken, first, second)) => ..,     // a white top-hat
//!     ..
//! }
//! ```
#![tactic(auto)]

mod forms;

pub use forms::{Form, Rest, form_of};
pub use mw_c_lent::Rule;
pub use mw_plan::Plan;
