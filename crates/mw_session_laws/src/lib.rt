//! Laws of scripts: an output is a function of the input, marks of memory can be seen, and work comes to the same in any
//! order. And what payloads are read as, for sessions over a core and at a board.
//!
//! ```text
//! one_output() // two scripts of the same bytes, from one state and without marks, write one text
//! let image = read_image(alloc, payload); // Ok, or the code of the refusal
//! ```
#![tactic(auto)]

mod laws;
mod payloads;

pub use laws::{
    marks_are_seen, one_output, work_in_any_order, work_is_lawful, written_is_a_front,
    written_text_stays,
};
pub use payloads::{read_element, read_image};
