//! A set in rows of so many words, with neutral pixels around it.
ghost use Rattle.std.specs.Prelude.{◌≡◌, ℕ, ◌+◌, ◌*◌, ◌<◌, ◌≤◌, ◌^◌, negsuc, pos, ◌+ℤ◌, ◌≤ℤ◌, length, vec_len, IfOk, IsTrue};
ghost use Rattle.mw_model.specs.declared.limits.TheConstants.{FAR_LIMIT};
ghost use Rattle.mw_offset.specs.mw_lane.Shifted.{merge_at};
ghost use Rattle.mw_offset.specs.mw_line.Cells.{window_cell, merged_cell};
ghost use Rattle.mw_offset.specs.mw_pixel_words.Packed.{bit_of, stride_of};

use crate::WordExtremum;
use crate::held::words_of;
use crate::window_rows::combine_window_row;
use mw_bits_rows::copy_rows;
use mw_model::NoMemory;
use mw_offset::pixel::Bit;
use mw_offset::tile::Window;
use mw_offset::words::{repeated, stride};
use std::alloc::Global;

/// Merges into each of `high` rows of `wide` words what the set has there, from that column and row of it on.
pub(crate) fn spread_rows<E: WordExtremum>(
    set: &Window<Bit>,
    column: i64,
    row: i64,
    wide: usize,
    high: usize,
    out: &mut [u64],
)
    requires room { high * wide ≤ length out.old }
    requires few { high ≤ FAR_LIMIT }
    requires narrow { wide ≤ FAR_LIMIT }
    requires low { negsuc FAR_LIMIT ≤ℤ column }
    requires far { column ≤ℤ pos FAR_LIMIT }
    requires near { row ≤ℤ pos FAR_LIMIT }
    ensures { (x y : ℕ) → x < 64 * wide → y < high → bit_of out.new (y * (64 * wide) + x) ≡ merged_cell E.merge (bit_of out.old (y * (64 * wide) + x)) set.now column row x y }
{
    for y in 0..high {
        let start = y * wide;
        combine_window_row::<E>(set, column, row + y as i64, &mut out[start..start + wide]);
    }
}

/// Whether the set's rows stand as they are wanted: of so many words from the window's first column on, and all there.
fn has_rows(set: &Window<Bit>, column: i64, row: i64, wide: usize, high: usize) -> bool
    requires near { row ≤ℤ pos FAR_LIMIT }
    requires few { high ≤ 2 ^ 34 }
    ensures { IsTrue result → (column ≡ pos 0) × (wide ≡ stride_of set.now.place.width) × (pos 0 ≤ℤ row) × ((row +ℤ pos high) ≤ℤ pos set.now.place.height) }
{
    let place = set.place();
    if column != 0 || row < 0 || wide != stride(place.width) {
        return false;
    }
    row + high as i64 <= i64::from(place.height)
}

/// Copies so many of the set's rows from that one on.
fn copy_held<E: WordExtremum>(set: &Window<Bit>, row: usize, high: usize, out: &mut [u64])
    requires inside { row + high ≤ set.now.place.height }
    requires room { high * stride_of set.now.place.width ≤ length out.old }
    ensures { (x y : ℕ) → x < 64 * stride_of set.now.place.width → y < high → bit_of out.new (y * (64 * stride_of set.now.place.width) + x) ≡ merge_at E.merge (E.neutral_of 1) (window_cell set.now (pos x) (pos (row + y))) }
{
    let width = set.place().width;
    let wide = stride(width);
    let words = words_of(set);
    let held = &words[row * wide..(row + high) * wide];
    copy_rows::<E>(held, width, high, &mut out[..high * wide]);
}

/// Neutral pixels in each of `high` rows of `wide` words, merged with what the set has there, and one word more.
pub fn spread<E: WordExtremum>(
    alloc: Global,
    set: &Window<Bit>,
    column: i64,
    row: i64,
    wide: usize,
    high: usize,
) -> Result<Vec<u64>, NoMemory>
    requires few { high ≤ 2 ^ 34 }
    requires narrow { wide ≤ 2 ^ 28 }
    requires low { negsuc FAR_LIMIT ≤ℤ column }
    requires far { column ≤ℤ pos FAR_LIMIT }
    requires near { row ≤ℤ pos FAR_LIMIT }
    ensures size { IfOk result (λ v. vec_len v ≡ high * wide + 1) }
    ensures cells { IfOk result (λ v. (x y : ℕ) → x < 64 * wide → y < high → bit_of v.items (y * (64 * wide) + x) ≡ merged_cell E.merge (E.neutral_of 1) set.now column row x y) }
{
    let mut cells = repeated(alloc, high * wide + 1, E::neutral_word())?;
    if has_rows(set, column, row, wide, high) {
        copy_held::<E>(set, row as usize, high, cells.as_mut_slice());
        return Ok(cells);
    }
    spread_rows::<E>(set, column, row, wide, high, cells.as_mut_slice());
    Ok(cells)
}
