//! Operators on images and on arrays, in which wrong bodies are tried. Each function has the contract of the one that it calls, word
//! for word, and a body that only calls it. So it is proved only as long as that contract implies this one, and a wrong body that is
//! refused here is refused there too. Nothing stands on this crate: a wrong body of it is checked in seconds, one of the real
//! function's crate only over all of that crate.
#![tactic(auto)]

mod arrays;
mod images;
mod rows;

pub use arrays::flat_u8;
pub use images::apply;
pub use rows::flat_rows_u8;
