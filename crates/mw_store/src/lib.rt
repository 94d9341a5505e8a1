//! What the machine keeps: names, submissions, outcomes and values, all by ticket.
//!
//! The ticket of an entry is its place in the order of acceptance. An image is kept in one piece, or as the tiles that it
//! was made of; no contract tells which. A share of it owns its plane or its tiles too, and so does a window of any
//! rectangle of it: these copy no sample. What takes memory answers `NoMemory`, and the store is then as before. `add` takes
//! some for its columns only where the number of entries is a multiple of 16.
//! `settle`, `kill` and `release` ask for no memory, and drop what nothing needs any more.
//!
//! Beside each ticket stands how many pending entries have it as an input, and beside a pending one the list of these: so
//! `settle`, which hands this list out, and `release` look at one entry and its inputs, and only `kill` looks at all
//! entries.
//!
//! ```text
//! let mut store = Store::new(alloc)?;
//! let ticket = store.add(name, Entry::Image(image))?;
//! let outcome = store.outcome(ticket);
//! ```
#![tactic(auto)]

mod cascade;
mod columns;
mod fetched;
mod image_shapes;
mod kept;
mod outcomes;
mod plates;
mod row_room;
mod runs;
mod spent;
mod waiting;
mod wanted;

pub use columns::Store;
pub use fetched::{Fetched, FetchedValue};
pub use image_shapes::ImageShape;
pub use kept::{Entry, StoredValue};
pub use mw_model::NoMemory;
pub use plates::{Plate, PlateView};
pub use row_room::reserve_row;
pub use runs::ResolvedRun;
pub use waiting::Waiters;

// What lower crates offer, for the crates above.
pub mod element {
    pub use mw_tile_planes::element::Element;
}

pub mod gran {
    pub use mw_gran::{Curve, plan_of_legal};
}

pub mod pixel {
    pub use mw_tile_planes::pixel::{Image, Plane};
}

pub mod plan {
    pub use mw_gran::plan::{Input, Plan, PlanFault, Source, Sources, shape_of};
}

pub mod task {
    pub use mw_tile_planes::task::{SharedWindow, TaskRefused, TileDone, Work};
}

pub mod tiles {
    pub use mw_tile_planes::{TiledRows, TilesView, WholePlane};
}
