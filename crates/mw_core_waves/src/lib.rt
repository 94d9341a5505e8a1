//! All work of a core, run by one worker or by several: tasks are taken from the core, run, and handed back. With several
//! workers many are taken at once and run side by side in threads. Only one thread has the core, so nothing is locked, and
//! each result is known to be that of its task, so no samples are compared.
//!
//! ```
//! let crew = Crew { alloc, rt: &rt, workers: 4 };
//! run_all_work(crew, &mut core, &mut pick);
//! ```
#![tactic(auto)]

mod crew;
mod job;
mod pick;
mod shared;
mod wave;
mod work;
mod worth;

pub use crew::Crew;
pub use mw_core::Core;
pub use pick::Pick;
pub use work::run_all_work;

// What lower crates offer, for the crates above.
pub mod values {
    pub use mw_core::element::Element;
    pub use mw_core::pixel::Image;
    pub use mw_core::{Fetched, bytes_of_element};
}

pub mod payloads {
    pub use mw_session_laws::{read_element, read_image};
}
