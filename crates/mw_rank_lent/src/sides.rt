//! Medians in the columns at a side of the frame, where the square goes beyond it. Lines down the columns are put in the place of
//! rows; beside the frame stands the greatest level, which is behind all that is seen. Since a square that is cut by a side alone
//! still has more than half of its offsets in the frame, its median is one of what is seen.
ghost use Rattle.std.specs.Prelude.{◌≡◌, ◌+◌, ◌-◌, ◌*◌, ◌≤◌, length};
ghost use Rattle.mw_model.specs.Windows.{seen_at};
ghost use Rattle.mw_rank_medians.specs.Filled.{filled_at};
ghost use Rattle.mw_rank_medians.specs.mw_rank.Ranks.{HasRows};
ghost use Rattle.mw_rank_lent.specs.Lines.{AreSeen};
ghost use Rattle.mw_rank_lent.specs.Middles.{AreInner, IsMiddle, median_at};

use crate::broad::Broad;
use crate::columns::{Columns, put_lines};
use crate::squares::Square;
use mw_rank_medians::{Sheet, medians_of_rows};
use mw_tile_lent::Lent;

/// Columns from column x on, of so many rows from row y on.
#[derive(Clone, Copy)]
pub(crate) struct Side {
    pub x: u32,
    pub y: u32,
    pub rows: u32,
}

/// The medians of as many columns as the square reaches to a side, of which the lines are given.
fn put_medians<P: Broad>(lent: &Lent<P>, square: Square, side: Side, lines: &[P], made: &mut [P])
    requires middle { IsMiddle square }
    requires inner { AreInner lent.now square side.y side.rows }
    requires left { lent.now.place.x ≤ side.x }
    requires right { side.x + square.reach ≤ lent.now.place.x + lent.now.place.width }
    requires tall { P.WIDTH ≤ side.rows }
    requires lines { HasRows P.level (λ i q. filled_at P.level P.top_level (seen_at lent.now) square.first (side.x + q) (side.y + i)) (side.rows + square.side - 1) (square.side - 1 + square.reach) lines.now }
    requires seen { AreSeen P.level P.top_level lent.now square.first side.x side.y (side.rows + square.side - 1) (square.side - 1 + square.reach) }
    requires size { length made.old ≡ square.reach * side.rows }
    ensures { HasRows P.level (λ i e. median_at P.level lent.now square (side.x + e) (side.y + i)) side.rows square.reach made.new }
{
    let rows = side.rows as usize;
    let stride = rows + square.side as usize - 1;
    for e in 0..square.reach {
        let sheet = Sheet {
            samples: lines,
            from: e as usize * stride,
            stride,
        };
        let start = e as usize * rows;
        medians_of_rows(&mut made[start..start + rows], sheet, square.side, square.k);
    }
}

/// The medians of as many columns as the square reaches to a side, column after column.
pub(crate) fn put_side<P: Broad>(
    lent: &Lent<P>,
    square: Square,
    side: Side,
    lines: &mut [P],
    made: &mut [P],
)
    requires middle { IsMiddle square }
    requires inner { AreInner lent.now square side.y side.rows }
    requires left { lent.now.place.x ≤ side.x }
    requires right { side.x + square.reach ≤ lent.now.place.x + lent.now.place.width }
    requires tall { P.WIDTH ≤ side.rows }
    requires lines { length lines.old ≡ (square.side - 1 + square.reach) * (side.rows + square.side - 1) }
    requires size { length made.old ≡ square.reach * side.rows }
    ensures lines { length lines.new ≡ length lines.old }
    ensures medians { HasRows P.level (λ i e. median_at P.level lent.now square (side.x + e) (side.y + i)) side.rows square.reach made.new }
{
    let columns = Columns {
        x: side.x,
        y: side.y,
        count: square.side - 1 + square.reach,
        long: side.rows as usize + square.side as usize - 1,
    };
    put_lines(lent, square, columns, lines);
    put_medians(lent, square, side, lines, made);
}
