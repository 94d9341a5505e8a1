//! Rows of what is lent, laid out with neutral samples where its place has no rows or columns.
ghost use Rattle.std.specs.Prelude.{◌≡◌, ℕ, ◌+◌, ◌-◌, ◌*◌, ◌<◌, ◌≤◌, ◌^◌, pos, ◌+ℤ◌, ◌≤ℤ◌, nat_lt, if◌then◌else◌, length, slice_get, slice_index_or, slice_range};
ghost use Rattle.std.specs.Option.{unwrap_or};
ghost use Rattle.mw_model.specs.declared.limits.TheConstants.{FAR_LIMIT};
ghost use Rattle.mw_line.specs.mw_lane.Shifted.{at_place};
ghost use Rattle.mw_line.specs.Cells.{spread_cell, window_cell};

use mw_line::SpreadRows;
use mw_line::pixel::Pixel;
use mw_tile_lent::Lent;

/// Copies the row from `ahead` on over the places from `behind` on, as far as both have places.
fn copy_part<P: Pixel>(row: &[P], ahead: usize, behind: usize, out: &mut [P])
    ensures { (x : ℕ) (d : P) → x < length out.old → slice_index_or out.new x d ≡ (if nat_lt x behind then slice_index_or out.old x d else unwrap_or (slice_get row.now (x - behind + ahead)) (slice_index_or out.old x d)) }
{
    let start = behind.min(out.len());
    let skipped = ahead.min(row.len());
    let count = (row.len() - skipped).min(out.len() - start);
    out[start..start + count].copy_from_slice(&row[skipped..skipped + count]);
}

/// Copies the row from that column on, where it has such places.
fn copy_row<P: Pixel>(row: &[P], column: i64, out: &mut [P])
    ensures { (x : ℕ) (d : P) → x < length out.old → slice_index_or out.new x d ≡ unwrap_or (at_place row.now (column +ℤ pos x)) (slice_index_or out.old x d) }
{
    let away = column.unsigned_abs() as usize;
    if column < 0 {
        copy_part(row, 0, away, out);
    } else {
        copy_part(row, away, 0, out);
    }
}

/// Row y of what is lent.
fn lent_row<'a, P: Pixel>(lent: &Lent<'a, P>, y: u32) -> &'a [P]
    requires { y < lent.now.place.height }
    ensures { result.now ≡ slice_range lent.entry.now.cells (y * lent.entry.now.place.width) (y * lent.entry.now.place.width + lent.entry.now.place.width) }
{
    let wide = lent.place().width as usize;
    let from = y as usize * wide;
    &lent.samples()[from..from + wide]
}

/// Copies what is lent of a row, from that column on.
fn copy_lent_row<P: Pixel>(lent: &Lent<P>, column: i64, row: i64, out: &mut [P])
    ensures { (x : ℕ) (d : P) → x < length out.old → slice_index_or out.new x d ≡ unwrap_or (window_cell lent.now (column +ℤ pos x) row) (slice_index_or out.old x d) }
{
    let place = lent.place();
    if row >= 0 && row < i64::from(place.height) {
        copy_row(lent_row(lent, row as u32), column, out);
    }
}

/// Makes all samples neutral.
fn fill<P: Pixel>(out: &mut [P], neutral: P)
    ensures { (x : ℕ) (d : P) → x < length out.old → slice_index_or out.new x d ≡ neutral }
{
    for x in 0..out.len() {
        out[x] = neutral;
    }
}

/// Lays out a row.
fn lay_row<P: Pixel>(lent: &Lent<P>, column: i64, row: i64, neutral: P, out: &mut [P])
    ensures { (x : ℕ) (d : P) → x < length out.old → slice_index_or out.new x d ≡ unwrap_or (window_cell lent.now (column +ℤ pos x) row) neutral }
{
    fill(out, neutral);
    copy_lent_row(lent, column, row, out);
}

/// Lays out all rows, which are all that is there.
fn lay_all<P: Pixel>(lent: &Lent<P>, rows: SpreadRows, neutral: P, out: &mut [P])
    requires few { rows.high ≤ 2 ^ 20 }
    requires near { rows.row ≤ℤ pos FAR_LIMIT }
    requires size { length out.old ≡ rows.high * rows.wide }
    ensures { (x y : ℕ) (d : P) → x < rows.wide → y < rows.high → slice_index_or out.new (y * rows.wide + x) d ≡ spread_cell neutral lent.now rows.column rows.row x y }
{
    let wide = rows.wide;
    for y in 0..rows.high {
        let start = y * wide;
        let row = rows.row + y as i64;
        lay_row(
            lent,
            rows.column,
            row,
            neutral,
            &mut out[start..start + wide],
        );
    }
}

/// Lays out all rows.
pub(crate) fn lay_rows<P: Pixel>(lent: &Lent<P>, rows: SpreadRows, neutral: P, out: &mut [P])
    requires few { rows.high ≤ 2 ^ 20 }
    requires near { rows.row ≤ℤ pos FAR_LIMIT }
    requires room { rows.high * rows.wide ≤ length out.old }
    ensures size { length out.new ≡ length out.old }
    ensures made { (x y : ℕ) → x < rows.wide → y < rows.high → slice_index_or out.new (y * rows.wide + x) neutral ≡ spread_cell neutral lent.now rows.column rows.row x y }
{
    lay_all(lent, rows, neutral, &mut out[..rows.high * rows.wide]);
}
