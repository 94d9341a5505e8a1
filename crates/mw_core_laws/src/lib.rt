//! For which states of the machine a core stands, and how that goes on. First come laws of the work under a ticket: what is
//! kept of its tasks is what they make by the definitions, from its first task to the value under the ticket. Then come lemmas
//! on what a core shows before and after each change that it can make.
//!
//! So the crates that change a core, `mw_core_tasks`, `mw_core_ledger` and `mw_core`, prove each change once and by equations, and
//! cite here what it means for the machine. They take from here too what they need of the store and of the work under a ticket.
//! There are definitions, laws and lemmas here, and no code that runs: what the core does, beside any machine, is said in
//! `mw_core_ledger`.
#![tactic(auto)]

mod laws;

pub use laws::{finished_work, fresh_work, true_tasks, work_goes_on};
pub use mw_core_progress::{PlanProgress, WholePlane};
pub use mw_store::{
    Entry, Fetched, FetchedValue, ResolvedRun, Store, StoredValue, Waiters, reserve_row,
};

// What lower crates offer, for the crates above.
pub mod gran {
    pub use mw_store::gran::{Curve, plan_of_legal};
}

pub mod plan {
    pub use mw_store::plan::{Input, Plan, PlanFault, Source, Sources};
}

pub mod task {
    pub use mw_store::task::{SharedWindow, TileDone, Work};
}
