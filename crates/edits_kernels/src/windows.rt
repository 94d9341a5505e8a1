//! Of `mw_tile`.

ghost use Rattle.std.specs.Prelude.{◌≡◌, IfOk};
ghost use Rattle.mw_model.specs.Rectangles.{IsWithin};
ghost use Rattle.mw_tile.specs.Windows.{IsCut};
ghost use Rattle.mw_tile.specs.Cuts.{stood_at};

use mw_model::{NoMemory, Rect};
use mw_pixel::{Planar, Plane};
use std::alloc::Global;

/// `mw_tile::cut`.
pub fn cut<P: Planar>(alloc: Global, plane: &Plane<P>, rect: Rect) -> Result<Plane<P>, NoMemory>
    requires { IsWithin rect plane.now.width plane.now.height }
    ensures width { IfOk result (λ r. r.width ≡ rect.width) }
    ensures height { IfOk result (λ r. r.height ≡ rect.height) }
    ensures cells { IfOk result (λ r. IsCut (stood_at plane.now rect r) plane.now) }
{
    mw_tile::cut(alloc, plane, rect)
}
