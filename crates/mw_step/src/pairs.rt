//! Steps that put two images together.

ghost use Rattle.std.specs.Prelude.{◌≡◌, ◌-◌, IfOk};
ghost use Rattle.mw_step_task.specs.WindowTasks.{SameKind};
ghost use Rattle.mw_step_task.specs.Products.{HoldsImage, both_drawn};

use crate::extrema::LevelExtremum;
use crate::kinds::of_both;
use crate::pointwise::{differences, merged};
use mw_model::NoMemory;
use mw_rank_bits::bits;
use mw_step_task::TileResult;
use mw_step_task::tile::AnyWindow;
use std::alloc::Global;

/// Each sample of the first source less that of the second, stopping at 0.
pub(crate) fn minus(alloc: Global, a: &AnyWindow, b: &AnyWindow) -> Result<TileResult, NoMemory>
    requires place { a.now.view.place ≡ b.now.view.place }
    requires kinds { SameKind a.now b.now }
    ensures { IfOk result (HoldsImage (both_drawn a.now.kind a.now.maxval (λ m n. m - n) a.now.view b.now.view)) }
{
    of_both!(
        alloc,
        a,
        b,
        |set, other| bits::minus(alloc, set, other),
        |first, second| differences(alloc, first, second)
    )
}

/// The extremum of both samples.
pub(crate) fn merge<E: LevelExtremum>(
    alloc: Global,
    a: &AnyWindow,
    b: &AnyWindow,
) -> Result<TileResult, NoMemory>
    requires place { a.now.view.place ≡ b.now.view.place }
    requires kinds { SameKind a.now b.now }
    ensures { IfOk result (HoldsImage (both_drawn a.now.kind a.now.maxval E.of_two a.now.view b.now.view)) }
{
    of_both!(
        alloc,
        a,
        b,
        |set, other| E::of_sets(alloc, set, other),
        |first, second| merged::<_, E>(alloc, first, second)
    )
}
