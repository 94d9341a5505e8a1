//! What is kept of the plane of each step of a plan: its level, the place of its tiles or of its numbers, and which tiles are
//! dropped since nobody reads them any more.
//!
//! ```text
//! let levels = levels_of(alloc, &plan, PlaneLevel::new(kind, maxval))?;
//! let mut places = closed(alloc, &levels)?;
//! let mut ready = Ready::new(alloc, needs_of(alloc, &plan)?, grid)?;
//! places[0].open(alloc, grid, false)?;                  // before the first task of step 0 is started
//! places[0].put(grid, tile, made);
//! // once a task with this need is finished, in `ready` too:
//! drop_read(&mut places, &ready, grid, need, tile);
//! ```
#![tactic(auto)]

mod dropping;
mod levels;
mod needs;
mod step_planes;

pub use dropping::drop_read;
pub use levels::{PlaneLevel, levels_of};
pub use mw_grid::Grid;
pub use mw_model::{Kind, NoMemory};
pub use mw_plan::task::{SharedWindow, Step, TileResult};
pub use mw_plan::{Plan, PlannedStep};
pub use mw_ready::{Need, Ready, tasks_are_those_of_work};
pub use mw_tile_planes::{TileSums, TiledPlane, WholePlane};
pub use needs::needs_of;
pub use step_planes::{StepPlane, closed};
