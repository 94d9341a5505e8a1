//! What computes the tasks of a server.

use mw_pool_session::Gate;
use mw_step::task::{TaskRefused, TileDone, Work};
use std::alloc::Global;

/// Tasks are run by the kernels.
#[derive(Clone, Copy, Drop)]
pub struct Kernels {
    pub alloc: Global,
}

impl Gate for Kernels {
    fn compute(&self, work: Work) -> Result<TileDone, TaskRefused> {
        mw_step::run(self.alloc, work)
    }
}
