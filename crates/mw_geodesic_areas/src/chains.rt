//! The places of each level as a list, from the last to the first.

ghost use Rattle.std.specs.Prelude.{◌≡◌, ◌+◌, ◌<◌, ◌≤◌, ◌^◌, length, replicate, slice_index};
ghost use Rattle.mw_geodesic_areas.specs.Chains.{AreChained};
ghost use Rattle.mw_geodesic_areas.specs.Seen.{level_seen};

use crate::classes::{Task, sample_seen};
use mw_pixel::Pixel;

/// Writes the last place of each level, and before each place the last of its level: one more than its number, or 0.
pub(crate) fn chain<P: Pixel>(heads: &mut [u32], links: &mut [u32], task: &Task<'_, P>)
    requires heads { heads.old ≡ replicate (length heads.old) 0 }
    requires levels { length heads.old ≡ P.top_level + 1 }
    requires links { length links.old ≡ length task.now.samples.now }
    requires few { length task.now.samples.now < 2 ^ 32 }
    requires fits { task.now.maxval ≤ P.top_level }
    ensures { AreChained (level_seen P.level task.now.turned task.now.maxval task.now.samples.now) P.top_level (length task.now.samples.now) (slice_index heads.new) (slice_index links.new) }
{
    for i in 0..task.samples.len() {
        let level = usize::from(sample_seen(task, i).value());
        links[i] = heads[level];
        heads[level] = i as u32 + 1;
    }
}
