//! Room for what kernels lay out. Whoever makes tile after tile hands it on from one call to the next.
ghost use Rattle.std.specs.Prelude.{◌≤◌, length, IfOk};

use mw_line::pixel::{Pixel, copies};
use mw_model::NoMemory;
use std::alloc::Global;

/// Samples that a kernel writes over as it likes, and the allocator that more are asked of. What stands in them between two calls
/// says nothing.
#[derive(Drop)]
pub struct Room<P> {
    pub alloc: Global,
    pub cells: Vec<P>,
}

impl<P: Pixel> Room<P> {
    /// Room of no samples.
    pub fn new(alloc: Global) -> Room<P> {
        Room {
            alloc,
            cells: Vec::new(alloc),
        }
    }

    /// Lets it have so many samples at least. The old ones are given back before more are asked for, so that both are never held
    /// at once.
    pub fn hold(&mut self, count: usize, sample: P) -> Result<(), NoMemory>
        ensures { IfOk result (λ _. count ≤ length self.new.cells.items) }
    {
        if self.cells.len() < count {
            self.cells = Vec::new(self.alloc);
            self.cells = copies(self.alloc, count, sample)?;
        }
        Ok(())
    }
}
