//! Columns of what is lent as lines, with the greatest level in the columns beside it.
ghost use Rattle.std.specs.Prelude.{◌≡◌, ℕ, ◌+◌, ◌*◌, ◌<◌, ◌≤◌, pos, ◌+ℤ◌, ◌-ℤ◌, length, slice_index_or};
ghost use Rattle.mw_model.specs.Windows.{seen_at};
ghost use Rattle.mw_rank_medians.specs.mw_rank.Ranks.{HasRows, levels_at};
ghost use Rattle.mw_rank_medians.specs.Filled.{filled_at, or_top};
ghost use Rattle.mw_rank_lent.specs.Lines.{AreSeen, IsOne, levels_in};
ghost use Rattle.mw_rank_lent.specs.Middles.{IsMiddle};

use crate::squares::Square;
use mw_rank_medians::pixel::Pixel;
use mw_tile_lent::Lent;

/// Copies samples that stand `stride` behind one another.
fn copy_column<P: Pixel>(samples: &[P], from: usize, stride: usize, line: &mut [P])
    requires { (i : ℕ) → i < length line.old → from + i * stride < length samples.now }
    ensures size { length line.new ≡ length line.old }
    ensures cells { (i : ℕ) → i < length line.old → slice_index_or line.new i P.TOP ≡ slice_index_or samples.now (from + i * stride) P.TOP }
    ensures small { (i : ℕ) → i < length line.old → P.level (slice_index_or line.new i P.TOP) ≤ P.top_level }
{
    for i in 0..line.len() {
        let sample = samples[from + i * stride];
        // for its level, which is none above the top
        let _level = sample.value();
        line[i] = sample;
    }
}

/// Fills a line with the greatest level.
fn fill<P: Pixel>(line: &mut [P])
    ensures size { length line.new ≡ length line.old }
    ensures cells { (i : ℕ) → i < length line.old → P.level (slice_index_or line.new i P.TOP) ≡ P.top_level }
{
    for i in 0..line.len() {
        line[i] = P::TOP;
    }
}

/// Writes the levels of a column of the place from that row on, which may be a column beside it.
fn put_line<P: Pixel>(lent: &Lent<P>, column: i64, row: u32, line: &mut [P])
    requires { row + length line.old ≤ lent.now.place.height }
    ensures size { length line.new ≡ length line.old }
    ensures made { (i : ℕ) → i < length line.old → P.level (slice_index_or line.new i P.TOP) ≡ or_top P.top_level (levels_in P.level lent.now column (pos (row + i))) }
    ensures seen { (i c : ℕ) → i < length line.old → column ≡ pos c → c < lent.now.place.width → IsOne P.top_level (levels_in P.level lent.now column (pos (row + i))) }
{
    let place = lent.place();
    if column < 0 || column >= i64::from(place.width) {
        fill(line);
        return;
    }
    let stride = place.width as usize;
    let from = row as usize * stride + column as usize;
    copy_column(lent.samples(), from, stride, line);
}

/// So many columns of so many rows, from column x of row y on.
#[derive(Clone, Copy)]
pub(crate) struct Columns {
    pub x: u32,
    pub y: u32,
    pub count: u32,
    pub long: usize,
}

/// The column, counted from `first`, that lies `reach` before number q of those from x on.
fn column_of(x: u32, q: u32, reach: u32, first: u32) -> i64
    ensures { result ≡ pos (x + q) -ℤ pos reach -ℤ pos first }
{
    i64::from(x) + i64::from(q) - i64::from(reach) - i64::from(first)
}

/// Writes the samples at a square's first offset from the places of column number q.
fn put_column<P: Pixel>(lent: &Lent<P>, square: Square, columns: Columns, q: u32, line: &mut [P])
    requires middle { IsMiddle square }
    requires above { lent.now.place.y + square.reach ≤ columns.y }
    requires below { columns.y + length line.old ≤ square.reach + lent.now.place.y + lent.now.place.height }
    ensures made { (i : ℕ) → i < length line.old → P.level (slice_index_or line.new i P.TOP) ≡ filled_at P.level P.top_level (seen_at lent.now) square.first (columns.x + q) (columns.y + i) }
    ensures seen { (i c : ℕ) → i < length line.old → pos (columns.x + q) +ℤ square.first.dx -ℤ pos lent.now.place.x ≡ pos c → c < lent.now.place.width → IsOne P.top_level (levels_at P.level (seen_at lent.now) square.first (columns.x + q) (columns.y + i)) }
{
    let place = lent.place();
    let row = columns.y - square.reach - place.y;
    let column = column_of(columns.x, q, square.reach, place.x);
    put_line(lent, column, row, line);
}

/// Writes the samples at a square's first offset from places that stand in columns, line after line.
pub(crate) fn put_lines<P: Pixel>(lent: &Lent<P>, square: Square, columns: Columns, lines: &mut [P])
    requires middle { IsMiddle square }
    requires above { lent.now.place.y + square.reach ≤ columns.y }
    requires below { columns.y + columns.long ≤ square.reach + lent.now.place.y + lent.now.place.height }
    requires size { length lines.old ≡ columns.count * columns.long }
    ensures rows { HasRows P.level (λ i q. filled_at P.level P.top_level (seen_at lent.now) square.first (columns.x + q) (columns.y + i)) columns.long columns.count lines.new }
    ensures seen { AreSeen P.level P.top_level lent.now square.first columns.x columns.y columns.long columns.count }
{
    for q in 0..columns.count {
        let start = q as usize * columns.long;
        let line = &mut lines[start..start + columns.long];
        put_column(lent, square, columns, q, line);
    }
}
