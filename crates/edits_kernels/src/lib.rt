//! Kernels and operators of the reference, in which wrong bodies are tried. Each function has the contract of the one that it calls,
//! word for word, and a body that only calls it. So it is proved only as long as that contract implies this one, and a wrong body that
//! is refused here is refused there too. Nothing stands on this crate: a wrong body of it is checked in seconds, one of the real
//! function's crate only over all of that crate.
#![tactic(auto)]

mod ranks;
mod reference;
mod sets;
mod sliding;
mod tiles;
mod windows;

pub use ranks::rank;
pub use reference::{eroded_times, opening};
pub use sets::{meet, threshold};
pub use sliding::{extremum, rectangle};
pub use tiles::rect;
pub use windows::cut;
