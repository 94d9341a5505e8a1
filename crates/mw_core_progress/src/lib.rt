//! The work under a ticket: the tasks of its plan, and the tiles that they have made and that others still read.
//!
//! ```text
//! let mut progress = PlanProgress::new(alloc, plan, grid, kind, maxval)?;
//! while progress.remaining() > 0 {
//!     let (step, tile) = progress.task_at(0);
//!     progress.start(alloc, 0)?;
//!     let window = progress.window(alloc, earlier_step, rect)?;    // of a step that it reads
//!     // compute the tile of the step, here or elsewhere; others may be started meanwhile
//!     progress.finish(step, tile, made);
//! }
//! let plane = progress.into_plane();                               // of the last step
//! ```
//!
//! The plane of a step is opened when the first of its tasks is started, and a tile of it is dropped when the last task
//! that reads it is finished.
#![tactic(auto)]

mod progress;

pub use mw_core_planes::{Plan, PlannedStep, SharedWindow, TileResult, TiledPlane, WholePlane};
pub use mw_grid::Grid;
pub use mw_model::{Kind, NoMemory, Rect};
pub use progress::PlanProgress;
