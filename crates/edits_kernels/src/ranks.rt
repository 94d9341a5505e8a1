//! Of `mw_rank`.

ghost use Rattle.std.specs.Prelude.{◌≡◌, ◌<◌, ◌^◌, length, IfOk};
ghost use Rattle.mw_model.specs.Rasters.{Raster, cell_at};
ghost use Rattle.mw_model.specs.Windows.{seen_at};
ghost use Rattle.mw_tile.specs.Windows.{IsWindow};
ghost use Rattle.mw_rank.specs.Ranks.{IsRank};

use mw_model::{NoMemory, Offset, Rect};
use mw_tile::Window;
use mw_tile::pixel::{Grey, Plane};
use std::alloc::Global;

/// `mw_rank::rank`.
pub fn rank<P: Grey>(
    alloc: Global,
    window: &Window<P>,
    offsets: &[Offset],
    k: u32,
    tile: Rect,
) -> Result<Plane<P>, NoMemory>
    requires { length offsets.now < 2 ^ 16 }
    ensures over_window { IfOk result (λ r. IsRank P.level k (seen_at window.now) offsets.now tile r) }
    ensures over_frame { IfOk result (λ r. (f : Raster P) → IsWindow window.now f offsets.now tile → IsRank P.level k (cell_at f) offsets.now tile r) }
{
    mw_rank::rank(alloc, window, offsets, k, tile)
}
