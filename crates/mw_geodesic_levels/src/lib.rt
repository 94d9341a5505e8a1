//! Reconstruction by dilation of grey images, after Vincent (Morphological Grayscale Reconstruction in Image Analysis,
//! 1993): sweeps over the rows, by pairs until few places are left to raise, and then a queue, here one by levels, from which the
//! highest are taken first, so that few places are raised more than once. What lies level with the place that raises it is raised
//! along its row at once. A last look finds whether any place is left that can be raised, and then all that is done once more:
//! the queue has not room for all places, and leaves out those for which there is none.
//!
//! Every step raises a sample at most to what one near it has, within the mask. That alone is proved of the sweeps and the
//! queue: the image stays under each image that cannot be raised, and so under the reconstruction. What the last look says
//! makes it equal, so the order of the sweeps, and which places wait, are free.
//!
//! ```text
//! let rebuilt = reconstruction(alloc, &marker, &mask, Neighbours::Eight)?;
//! ```
#![tactic(auto)]

mod batches;
mod flood;
mod frame;
mod last_look;
mod near;
mod neighbours;
mod plateaus;
mod queue;
mod rebuilding;
mod runs;
mod samples;
mod sweeps;
mod waiting;

pub use mw_geodesic::Neighbours;
pub use mw_model::NoMemory;
pub use rebuilding::{reconstruct, reconstruction};

// What the crates above take of frames, neighbours and samples.
pub mod found {
    pub use crate::frame::{Frame, Place};
    pub use crate::near::{above, below, reach};
    pub use crate::neighbours::corners;
    pub use crate::samples::{at, put};
}
