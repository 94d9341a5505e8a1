//! Ranks of levels of grey: medians under small squares by whole vectors, and else as `mw_rank_rows` makes them.

ghost use Rattle.std.specs.Prelude.{◌<◌, ◌^◌, length, IfOk};
ghost use Rattle.mw_model.specs.Windows.{seen_at};
ghost use Rattle.mw_rank_rows.specs.mw_rank.Ranks.{IsRank};

use mw_model::{NoMemory, Offset, Rect};
use mw_rank_medians::{Vectored, median_of_grey};
use mw_rank_rows::{Counted, rank_by_rows};
use mw_step_task::pixel::Plane;
use mw_step_task::tile::Window;
use std::alloc::Global;

/// At each place of the tile, of the samples that the window has under the element in rising order, number k, counted from
/// 1, or the last where there are fewer; 0 where there is none.
pub(crate) fn rank_of_levels<P: Counted + Vectored>(
    alloc: Global,
    window: &Window<P>,
    offsets: &[Offset],
    k: u32,
    tile: Rect,
) -> Result<Plane<P>, NoMemory>
    requires { length offsets.now < 2 ^ 16 }
    ensures over_window { IfOk result (λ r. IsRank P.level k (seen_at window.now) offsets.now tile r) }
{
    match median_of_grey(alloc, window, offsets, k, tile)? {
        Some(medians) => Ok(medians),
        None => rank_by_rows(alloc, window, offsets, k, tile),
    }
}
