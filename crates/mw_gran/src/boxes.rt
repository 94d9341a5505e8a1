//! Boxes of offsets, multiplied.

ghost use Rattle.std.specs.Prelude.{◌≡◌, ◌≤◌};
ghost use Rattle.mw_model.specs.declared.limits.TheConstants.{SIZE_LIMIT};
ghost use Rattle.mw_plan.specs.Steps.{IsNearBox};
ghost use Rattle.mw_gran.specs.Boxes.{multiplied};

use mw_model::OffsetBox;

/// The box with all four bounds multiplied.
pub(crate) fn multiplied(offsets: OffsetBox, n: u32) -> OffsetBox
    requires near { IsNearBox offsets }
    requires small { n ≤ SIZE_LIMIT }
    ensures { result ≡ multiplied n offsets }
{
    let n = n as i32;
    OffsetBox {
        x0: n * offsets.x0,
        x1: n * offsets.x1,
        y0: n * offsets.y0,
        y1: n * offsets.y1,
    }
}
