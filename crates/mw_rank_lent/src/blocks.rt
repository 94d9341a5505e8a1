//! Blocks of rows of medians, of which the columns at the sides are made together.
ghost use Rattle.std.specs.Prelude.{◌≡◌, ℕ, ◌+◌, ◌-◌, ◌*◌, ◌<◌, ◌≤◌, length};
ghost use Rattle.mw_rank_medians.specs.mw_rank.Ranks.{HasRows};
ghost use Rattle.mw_rank_lent.specs.Middles.{AreInner, HasMedians, IsMiddle, PutsMedians, median_at};

use crate::broad::Broad;
use crate::rows::{Sides, put_row};
use crate::sides::{Side, put_side};
use crate::squares::Square;
use mw_tile_lent::Lent;

/// Some rows, the square that is put on them, and where the first begins in what is written.
#[derive(Clone, Copy)]
pub(crate) struct Block {
    pub square: Square,
    pub y: u32,
    pub rows: u32,
    pub at: usize,
}

/// Writes the rows between the sides, and these beside them.
fn put_rows<P: Broad>(lent: &Lent<P>, square: Square, sides: Sides<P>, at: usize, out: &mut [P])
    requires middle { IsMiddle square }
    requires inner { AreInner lent.now square sides.y sides.rows }
    requires wide { P.WIDTH + 2 * square.reach ≤ lent.now.place.width }
    requires left { HasRows P.level (λ i e. median_at P.level lent.now square (lent.now.place.x + e) (sides.y + i)) sides.rows square.reach sides.left.now }
    requires right { HasRows P.level (λ i e. median_at P.level lent.now square (lent.now.place.x + (lent.now.place.width - square.reach) + e) (sides.y + i)) sides.rows square.reach sides.right.now }
    requires room { at + sides.rows * lent.now.place.width ≤ length out.old }
    ensures { PutsMedians P.level lent.now square sides.entry.y sides.entry.rows at out.old out.new }
{
    let width = lent.place().width as usize;
    for row in 0..sides.rows {
        put_row(lent, square, sides, row, at + row as usize * width, out);
    }
}

/// Writes the medians of a block. There is room for its lines, and for the medians of both sides.
fn put_block<P: Broad>(
    lent: &Lent<P>,
    block: Block,
    lines: &mut [P],
    left: &mut [P],
    right: &mut [P],
    out: &mut [P],
)
    requires middle { IsMiddle block.square }
    requires inner { AreInner lent.now block.square block.y block.rows }
    requires wide { P.WIDTH + 2 * block.square.reach ≤ lent.now.place.width }
    requires tall { P.WIDTH ≤ block.rows }
    requires lines { length lines.old ≡ (block.square.side - 1 + block.square.reach) * (block.rows + block.square.side - 1) }
    requires left { length left.old ≡ block.square.reach * block.rows }
    requires right { length right.old ≡ block.square.reach * block.rows }
    requires room { block.at + block.rows * lent.now.place.width ≤ length out.old }
    ensures { PutsMedians P.level lent.now block.square block.y block.rows block.at out.old out.new }
{
    let Block {
        square,
        y,
        rows,
        at,
    } = block;
    // for the numbers of its columns
    let _width = lent.frame_width();
    let place = lent.place();
    let first = Side {
        x: place.x,
        y,
        rows,
    };
    put_side(lent, square, first, lines, left);
    let last = Side {
        x: place.x + (place.width - square.reach),
        y,
        rows,
    };
    put_side(lent, square, last, lines, right);
    let sides = Sides {
        left,
        right,
        y,
        rows,
    };
    put_rows(lent, square, sides, at, out);
}

/// Some rows, of which so many are made at a time.
#[derive(Clone, Copy)]
pub(crate) struct Area {
    pub square: Square,
    pub y: u32,
    pub height: u32,
    pub rows: u32,
}

/// Writes the medians of an area, block after block. The last block begins early enough to end with the area.
pub(crate) fn put_blocks<P: Broad>(
    lent: &Lent<P>,
    area: Area,
    lines: &mut [P],
    left: &mut [P],
    right: &mut [P],
    out: &mut [P],
)
    requires middle { IsMiddle area.square }
    requires inner { AreInner lent.now area.square area.y area.height }
    requires wide { P.WIDTH + 2 * area.square.reach ≤ lent.now.place.width }
    requires tall { P.WIDTH ≤ area.rows }
    requires high { area.rows ≤ area.height }
    requires lines { length lines.old ≡ (area.square.side - 1 + area.square.reach) * (area.rows + area.square.side - 1) }
    requires left { length left.old ≡ area.square.reach * area.rows }
    requires right { length right.old ≡ area.square.reach * area.rows }
    requires room { length out.old ≡ area.height * lent.now.place.width }
    ensures { HasMedians P.level lent.now area.square area.y area.height out.new }
{
    // for the numbers of its rows
    let _height = lent.frame_height();
    let width = lent.place().width as usize;
    let mut done = 0u32;
    'by_block: while done < area.height {
        let from = done.min(area.height - area.rows);
        let block = Block {
            square: area.square,
            y: area.y + from,
            rows: area.rows,
            at: from as usize * width,
        };
        put_block(lent, block, lines, left, right, out);
        done = from + area.rows;
    }
}
