//! What a session call is answered, off the table and what is kept: the first case that refuses it, in the order of the
//! protocol, or what is accepted.
#![tactic(auto)]

mod checks;

pub use checks::{fetch_reply, of_cancel, of_given, of_release, of_run, status_reply};

// What lower crates offer, for the crates above.
pub mod element {
    pub use mw_store::element::Element;
}

pub mod pixel {
    pub use mw_store::pixel::Image;
}

pub mod task {
    pub use mw_store::task::{TaskRefused, TileDone, Work};
}
