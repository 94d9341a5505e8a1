//! What holds the samples of a plane.

ghost use Rattle.std.specs.Prelude.{◌≡◌, ◌↔◌, ◌+◌, ◌*◌, ◌<◌, ◌≤◌, length, replicate, slice_get, slice_range, Some, IsTrue, MatchResult};
ghost use Rattle.mw_model.specs.Rasters.{Raster, raster};
ghost use Rattle.mw_pixel_words.specs.Runs.{put_at};

use crate::NoMemory;
use std::alloc::Global;

/// The samples of a rectangle, however they are held. They stand by rows from the top, and in each row from the left.
pub trait Samples<P>: Drop {
    ghost shown: { Self → Raster P };

    /// The columns.
    fn width(&self) -> u32
        ensures value { result ≡ (shown self.now).width }
        ensures size { length (shown self.now).cells ≡ (shown self.now).height * (shown self.now).width };

    /// The rows.
    fn height(&self) -> u32
        ensures { result ≡ (shown self.now).height };

    /// The sample in column x of row y.
    fn at(&self, x: u32, y: u32) -> P
        requires across { x < (shown self.now).width }
        requires down { y < (shown self.now).height }
        ensures { slice_get (shown self.now).cells (y * (shown self.now).width + x) ≡ Some result };

    /// One sample everywhere. It may want memory (`NoMemory`), but none for no samples.
    fn filled(alloc: Global, width: u32, height: u32, sample: P) -> Result<Self, NoMemory>
        ensures { MatchResult result (λ p. shown p ≡ raster width height (replicate (height * width) sample)) (λ _. 0 < height * width) };

    /// Whether both have the same sides and samples.
    fn same(&self, other: &Self) -> bool
        ensures { IsTrue result ↔ (shown self.now ≡ shown other.now) };

    /// Writes so many samples of row `v` of others, from their column `u` on, over those of row y from column x on.
    fn copy_run(&mut self, x: u32, y: u32, other: &Self, u: u32, v: u32, count: u32)
        requires across { x + count ≤ (shown self.old).width }
        requires down { y < (shown self.old).height }
        requires across_other { u + count ≤ (shown other.now).width }
        requires down_other { v < (shown other.now).height }
        ensures { shown self.new ≡ raster (shown self.old).width (shown self.old).height (put_at (y * (shown self.old).width + x) (slice_range (shown other.now).cells (v * (shown other.now).width + u) (v * (shown other.now).width + u + count)) (shown self.old).cells) };

    /// Whether so many samples of row y from column x on are those of row `v` of others from their column `u` on.
    fn same_run(&self, x: u32, y: u32, other: &Self, u: u32, v: u32, count: u32) -> bool
        requires across { x + count ≤ (shown self.now).width }
        requires down { y < (shown self.now).height }
        requires across_other { u + count ≤ (shown other.now).width }
        requires down_other { v < (shown other.now).height }
        ensures { IsTrue result ↔ (slice_range (shown self.now).cells (y * (shown self.now).width + x) (y * (shown self.now).width + x + count) ≡ slice_range (shown other.now).cells (v * (shown other.now).width + u) (v * (shown other.now).width + u + count)) };
}
