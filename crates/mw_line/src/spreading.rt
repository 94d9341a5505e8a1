//! Samples of a window in rows of one length, with neutral samples around them.
ghost use Rattle.std.specs.Prelude.{◌≡◌, ℕ, ◌+◌, ◌-◌, ◌*◌, ◌<◌, ◌≤◌, ◌^◌, pos, ◌+ℤ◌, ◌≤ℤ◌, nat_lt, if◌then◌else◌, length, slice_get, slice_index_or, vec_len, IfOk, IfSome, IsSome};
ghost use Rattle.std.specs.Option.{unwrap_or};
ghost use Rattle.mw_model.specs.declared.limits.TheConstants.{FAR_LIMIT};
ghost use Rattle.mw_lane.specs.Shifted.{at_place};
ghost use Rattle.mw_line.specs.Cells.{window_cell, spread_cell};

use mw_model::NoMemory;
use mw_tile::Window;
use mw_tile::pixel::{Grey, Pixel, copies};
use std::alloc::Global;

/// Rows of a window: the column and the row of their first place there, how long they are, and how many.
#[derive(Clone, Copy)]
pub struct SpreadRows {
    pub column: i64,
    pub row: i64,
    pub wide: usize,
    pub high: usize,
}

/// Copies the row from `ahead` on over the places from `behind` on, as far as both have places.
fn copy_part<P: Pixel>(row: &[P], ahead: usize, behind: usize, out: &mut [P])
    ensures { (x : ℕ) (d : P) → x < length out.old → slice_index_or out.new x d ≡ (if nat_lt x behind then slice_index_or out.old x d else unwrap_or (slice_get row.now (x - behind + ahead)) (slice_index_or out.old x d)) }
{
    let start = behind.min(out.len());
    let skipped = ahead.min(row.len());
    let count = (row.len() - skipped).min(out.len() - start);
    out[start..start + count].copy_from_slice(&row[skipped..skipped + count]);
}

/// Copies the row from that column on, where it has such places.
fn copy_row<P: Pixel>(row: &[P], column: i64, out: &mut [P])
    ensures { (x : ℕ) (d : P) → x < length out.old → slice_index_or out.new x d ≡ unwrap_or (at_place row.now (column +ℤ pos x)) (slice_index_or out.old x d) }
{
    let away = column.unsigned_abs() as usize;
    if column < 0 {
        copy_part(row, 0, away, out);
    } else {
        copy_part(row, away, 0, out);
    }
}

/// Copies what the window has in a row, from that column on.
fn copy_window_row<P: Grey>(window: &Window<P>, column: i64, row: i64, out: &mut [P])
    ensures { (x : ℕ) (d : P) → x < length out.old → slice_index_or out.new x d ≡ unwrap_or (window_cell window.now (column +ℤ pos x) row) (slice_index_or out.old x d) }
{
    let place = window.place();
    if row >= 0 && row < i64::from(place.height) {
        copy_row(window.row(row as u32), column, out);
    }
}

/// Copies what the window has at each place of the rows, which are all that is there.
fn copy_all<P: Grey>(window: &Window<P>, rows: SpreadRows, out: &mut [P])
    requires few { rows.high ≤ 2 ^ 20 }
    requires near { rows.row ≤ℤ pos FAR_LIMIT }
    requires size { length out.old ≡ rows.high * rows.wide }
    ensures { (x y : ℕ) (d : P) → x < rows.wide → y < rows.high → slice_index_or out.new (y * rows.wide + x) d ≡ spread_cell (slice_index_or out.old (y * rows.wide + x) d) window.now rows.column rows.row x y }
{
    let wide = rows.wide;
    for y in 0..rows.high {
        let start = y * wide;
        let row = rows.row + y as i64;
        copy_window_row(window, rows.column, row, &mut out[start..start + wide]);
    }
}

/// Copies what the window has at each place of the rows.
fn copy_rows<P: Grey>(window: &Window<P>, rows: SpreadRows, out: &mut [P])
    requires few { rows.high ≤ 2 ^ 20 }
    requires near { rows.row ≤ℤ pos FAR_LIMIT }
    requires room { rows.high * rows.wide ≤ length out.old }
    ensures { (x y : ℕ) (d : P) → x < rows.wide → y < rows.high → slice_index_or out.new (y * rows.wide + x) d ≡ spread_cell (slice_index_or out.old (y * rows.wide + x) d) window.now rows.column rows.row x y }
{
    copy_all(window, rows, &mut out[..rows.high * rows.wide]);
}

/// The row of the window from which on its rows stand as they are wanted: as long, from its first column on, and all there.
fn held_row<P: Grey>(window: &Window<P>, rows: SpreadRows) -> Option<usize>
    requires few { rows.high ≤ 2 ^ 20 }
    requires near { rows.row ≤ℤ pos FAR_LIMIT }
    ensures held { IfSome result (λ row. (rows.column ≡ pos 0) × (rows.wide ≡ window.now.place.width) × (rows.row ≡ pos row) × (row + rows.high ≤ window.now.place.height)) }
    ensures always { rows.column ≡ pos 0 → rows.wide ≡ window.now.place.width → pos 0 ≤ℤ rows.row → (rows.row +ℤ pos rows.high) ≤ℤ pos window.now.place.height → IsSome result }
{
    let place = window.place();
    if rows.column != 0 || rows.row < 0 || rows.wide != place.width as usize {
        return None;
    }
    if rows.row + rows.high as i64 > i64::from(place.height) {
        return None;
    }
    Some(rows.row as usize)
}

/// So many of the window's rows from that one on, and the neutral sample at 63 places more.
fn held_rows<P: Grey>(
    alloc: Global,
    window: &Window<P>,
    row: usize,
    high: usize,
    neutral: P,
) -> Result<Vec<P>, NoMemory>
    requires inside { row + high ≤ window.now.place.height }
    requires small { high * window.now.place.width + 63 < 2 ^ 64 }
    ensures size { IfOk result (λ v. vec_len v ≡ high * window.now.place.width + 63) }
    ensures cells { IfOk result (λ v. (x y : ℕ) → x < window.now.place.width → y < high → slice_index_or v.items (y * window.now.place.width + x) neutral ≡ unwrap_or (window_cell window.now (pos x) (pos (row + y))) neutral) }
{
    let wide = window.place().width as usize;
    let count = high * wide;
    let mut cells = Vec::with_capacity(alloc, count + 63)?;
    cells.extend_from_slice(&window.samples()[row * wide..(row + high) * wide])?;
    cells.resize(count + 63, neutral)?;
    Ok(cells)
}

/// What the window has at each place of the rows, and the neutral sample where it has nothing and at 63 places more. Rows that
/// stand as they are wanted, as those of a tile amid its frame do, are copied at once.
pub fn spread<P: Grey>(
    alloc: Global,
    window: &Window<P>,
    rows: SpreadRows,
    neutral: P,
) -> Result<Vec<P>, NoMemory>
    requires few { rows.high ≤ 2 ^ 20 }
    requires narrow { rows.wide ≤ 2 ^ 33 }
    requires near { rows.row ≤ℤ pos FAR_LIMIT }
    ensures size { IfOk result (λ v. vec_len v ≡ rows.high * rows.wide + 63) }
    ensures cells { IfOk result (λ v. (x y : ℕ) → x < rows.wide → y < rows.high → slice_index_or v.items (y * rows.wide + x) neutral ≡ spread_cell neutral window.now rows.column rows.row x y) }
{
    if let Some(row) = held_row(window, rows) {
        return held_rows(alloc, window, row, rows.high, neutral);
    }
    let mut cells = copies(alloc, rows.high * rows.wide + 63, neutral)?;
    copy_rows(window, rows, cells.as_mut_slice());
    Ok(cells)
}
