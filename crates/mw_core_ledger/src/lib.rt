//! The ledger: entries, the work under each pending ticket, and the log; and beside it how many tasks are ready and running.
//! Each change is said by equations, beside any machine. Which machine that is, the core says.
//!
//! The numbers of ready tasks by ticket stand in a tree of sums, which a change of one ticket's work mends on one way to its
//! root, with no pass over the entries. Only a kill counts anew.
//!
//! Items of the log are kept in at most 64 bytes each, with a block beside them for a RUN: an item with room for all that a
//! RUN may say takes over 160 bytes, and most items are not of a RUN, since clients ask how it stands more often than
//! they ask for work.
#![tactic(auto)]

mod calls;
mod compact;
mod counts;
mod ledger;
mod log_room;
mod settling;
mod sweep;
mod tally;
mod tasks;

pub use compact::Compact;
pub use ledger::Ledger;
pub use mw_core_tasks::{Entry, Fetched, FetchedValue, PlanProgress, planned};
pub use mw_model::NoMemory;
pub use tally::Counts;
pub use tasks::Unfit;
