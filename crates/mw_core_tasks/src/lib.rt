//! The work under a ticket, beside what is kept of its inputs: how an accepted command becomes work, which windows a task
//! of it reads, and whether a result is that of a running task.
#![tactic(auto)]

mod planning;
mod reading;
mod results;
mod sides;
mod taking;

pub use mw_core_laws::{
    Entry, Fetched, FetchedValue, PlanProgress, ResolvedRun, Store, StoredValue, Waiters,
    WholePlane, reserve_row,
};
pub use mw_model::NoMemory;
pub use planning::planned;
pub use results::{is_fit, is_result};
pub use taking::begin;

// What lower crates offer, for the crates above.
pub mod gran {
    pub use mw_core_laws::gran::Curve;
}

pub mod task {
    pub use mw_core_laws::task::{TileDone, Work};
}
