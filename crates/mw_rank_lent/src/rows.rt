//! Rows of medians: those of the columns at the sides, which were made as lines, and between them those under whole squares.
ghost use Rattle.std.specs.Prelude.{◌≡◌, ℕ, ◌+◌, ◌-◌, ◌*◌, ◌<◌, ◌≤◌, length, slice_index_or};
ghost use Rattle.mw_rank_medians.specs.mw_rank.Ranks.{HasRows};
ghost use Rattle.mw_rank_lent.specs.Middles.{AreInner, IsMiddle, PutsCells, median_at};

use crate::broad::Broad;
use crate::nine::medians_of_row;
use crate::squares::Square;
use mw_rank_medians::Sheet;
use mw_rank_medians::pixel::Pixel;
use mw_tile_lent::Lent;

/// The medians of the columns at both sides, column after column, of so many rows from row y on.
#[derive(Clone, Copy)]
pub(crate) struct Sides<'a, P: Pixel> {
    pub left: &'a [P],
    pub right: &'a [P],
    pub y: u32,
    pub rows: u32,
}

/// Writes a row of columns.
fn put_cells<P: Pixel>(made: &[P], rows: u32, row: u32, count: u32, at: usize, out: &mut [P])
    requires row { row < rows }
    requires size { length made.now ≡ count * rows }
    requires room { at + count ≤ length out.old }
    ensures size { length out.new ≡ length out.old }
    ensures kept { (p : ℕ) (d : P) → p < at → slice_index_or out.new p d ≡ slice_index_or out.old p d }
    ensures made { (i : ℕ) → i < count → slice_index_or out.new (at + i) P.TOP ≡ slice_index_or made.now (i * rows + row) P.TOP }
{
    for i in 0..count {
        out[at + i as usize] = made[i as usize * rows as usize + row as usize];
    }
}

/// Writes the medians of row y under whole squares: from column `reach` of the place on.
fn put_inner<P: Broad>(
    lent: &Lent<P>,
    square: Square,
    y: u32,
    at: usize,
    count: usize,
    out: &mut [P],
)
    requires middle { IsMiddle square }
    requires inner { AreInner lent.now square y 1 }
    requires wide { P.WIDTH ≤ count }
    requires count { count + 2 * square.reach ≡ lent.now.place.width }
    requires room { at + count ≤ length out.old }
    ensures { PutsCells P.level (λ i. median_at P.level lent.now square (lent.now.place.x + square.reach + i) y) at count out.old out.new }
{
    let place = lent.place();
    let stride = place.width as usize;
    let row = y - square.reach - place.y;
    let sheet = Sheet {
        samples: lent.samples(),
        from: row as usize * stride,
        stride,
    };
    medians_of_row(&mut out[at..at + count], sheet, square.side, square.k);
}

/// Writes the medians of a row of the place, that of this number of the rows of the sides.
pub(crate) fn put_row<P: Broad>(
    lent: &Lent<P>,
    square: Square,
    sides: Sides<P>,
    row: u32,
    at: usize,
    out: &mut [P],
)
    requires middle { IsMiddle square }
    requires inner { AreInner lent.now square sides.y sides.rows }
    requires wide { P.WIDTH + 2 * square.reach ≤ lent.now.place.width }
    requires row { row < sides.rows }
    requires left { HasRows P.level (λ i e. median_at P.level lent.now square (lent.now.place.x + e) (sides.y + i)) sides.rows square.reach sides.left.now }
    requires right { HasRows P.level (λ i e. median_at P.level lent.now square (lent.now.place.x + (lent.now.place.width - square.reach) + e) (sides.y + i)) sides.rows square.reach sides.right.now }
    requires room { at + lent.now.place.width ≤ length out.old }
    ensures { PutsCells P.level (λ i. median_at P.level lent.now square (lent.now.place.x + i) (sides.entry.y + row)) at lent.now.place.width out.old out.new }
{
    // for the numbers of its rows
    let _height = lent.frame_height();
    let width = lent.place().width as usize;
    let reach = square.reach as usize;
    put_cells(sides.left, sides.rows, row, square.reach, at, out);
    put_inner(
        lent,
        square,
        sides.y + row,
        at + reach,
        width - 2 * reach,
        out,
    );
    put_cells(
        sides.right,
        sides.rows,
        row,
        square.reach,
        at + width - reach,
        out,
    );
}
