//! Extrema under a box. The set is spread over rows of so many words, with neutral pixels around it; each bit becomes the
//! extremum of the box's columns from it on, and then that of the box's rows, both by doubling. So a side of k pixels
//! takes about log2(k) passes of shifted words over all rows at once.
ghost use Rattle.std.specs.Prelude.{◌≡◌, ℕ, ◌+◌, ◌-◌, ◌*◌, ◌/◌, ◌<◌, ◌≤◌, ◌^◌, pos, negsuc, ◌+ℤ◌, ◌≤ℤ◌, length, slice_index_or, vec_len, IfOk, OnOk};
ghost use Rattle.mw_model.specs.declared.limits.TheConstants.{FAR_LIMIT};
ghost use Rattle.mw_model.specs.Rectangles.{box_offsets};
ghost use Rattle.mw_model.specs.Rasters.{Raster, cell_at};
ghost use Rattle.mw_model.specs.Windows.{seen_at};
ghost use Rattle.mw_offset.specs.mw_tile.Windows.{IsWindow};
ghost use Rattle.mw_offset.specs.mw_line.Cells.{merged_cell};
ghost use Rattle.mw_offset.specs.mw_line.Extrema.{over_box, IsSlidingExtremum};
ghost use Rattle.mw_offset.specs.mw_pixel_words.Packed.{bit_of, stride_of, IsPacked};
ghost use Rattle.mw_bits.specs.Tiles.{WordsHoldExtrema};

use crate::WordExtremum;
use crate::held::plane_of;
use crate::spread::spread;
use crate::uniform::settled_box;
use mw_bits_rows::slide_words;
use mw_model::{NoMemory, OffsetBox, Rect};
use mw_offset::line::{first_seen, seen_across, seen_down};
use mw_offset::pixel::{Bit, Plane};
use mw_offset::tile::Window;
use mw_offset::words::{Words, repeated, stride, trimmed};
use std::alloc::Global;

/// How many pixels of a set are looked at, and from which column and row of it on by the tile's first pixel.
#[derive(Clone, Copy)]
struct Looked {
    column: i64,
    row: i64,
    across: usize,
    down: usize,
}

/// How many words rows of so many words have, where memory could hold them.
fn words_of_rows(high: usize, wide: usize) -> Result<usize, NoMemory>
    ensures count { IfOk result (λ n. n ≡ high * wide) }
    ensures few { IfOk result (λ n. n < 2 ^ 57) }
{
    let count = high.checked_mul(wide).ok_or(NoMemory)?;
    if count >= 1 << 57 {
        return Err(NoMemory);
    }
    Ok(count)
}

/// Each bit of the rows of `wide` words becomes the extremum of `across` by `down` bits from it on.
fn slide_box<E: WordExtremum>(
    cells: &mut [u64],
    wide: usize,
    high: usize,
    across: usize,
    down: usize,
)
    requires some { (0 < across) × (0 < down) × (0 < wide) }
    requires room { (across ≤ 64 * wide) × (down ≤ high) }
    requires size { length cells.old ≡ high * wide + 1 }
    requires few { length cells.old < 2 ^ 58 }
    ensures { (x y : ℕ) → x + across ≤ 64 * wide → y + down ≤ high → bit_of cells.new (y * (64 * wide) + x) ≡ over_box E.merge (λ i j. bit_of cells.old (j * (64 * wide) + i)) across down x y }
{
    slide_words::<E>(cells, 1, across);
    slide_words::<E>(cells, 64 * wide, down);
}

/// The extremum of `across` by `down` pixels of the set from each place of the tile on, counted from that column and row.
fn box_words<E: WordExtremum>(
    alloc: Global,
    set: &Window<Bit>,
    looked: Looked,
    tile: Rect,
) -> Result<Vec<u64>, NoMemory>
    requires some { (0 < looked.across) × (0 < looked.down) × (0 < tile.width) × (0 < tile.height) }
    requires few { (looked.across ≤ 2 ^ 33) × (looked.down ≤ 2 ^ 33) }
    requires left { negsuc FAR_LIMIT ≤ℤ looked.column }
    requires right { looked.column ≤ℤ pos FAR_LIMIT }
    requires near { looked.row ≤ℤ pos FAR_LIMIT }
    ensures packed { IfOk result (λ v. IsPacked tile.width tile.height v.items) }
    ensures cells { IfOk result (λ v. (x y : ℕ) → x < tile.width → y < tile.height → bit_of v.items (y * (64 * stride_of tile.width) + x) ≡ over_box E.merge (merged_cell E.merge (E.neutral_of 1) set.now looked.column looked.row) looked.across looked.down x y) }
{
    let across = looked.across;
    let down = looked.down;
    let wide = stride(tile.width) + (across + 62) / 64;
    let high = tile.height as usize + (down - 1);
    let _count = words_of_rows(high, wide)?;
    let mut cells = spread::<E>(alloc, set, looked.column, looked.row, wide, high)?;
    slide_box::<E>(cells.as_mut_slice(), wide, high, across, down);
    let made = trimmed(alloc, cells.as_slice(), wide, tile.width, tile.height)?;
    Ok(made)
}

/// The words of a tile of neutral pixels.
fn blank_words<E: WordExtremum>(alloc: Global, tile: Rect) -> Result<Vec<u64>, NoMemory>
    ensures packed { IfOk result (λ v. IsPacked tile.width tile.height v.items) }
    ensures cells { IfOk result (λ v. (x y : ℕ) → x < tile.width → y < tile.height → bit_of v.items (y * (64 * stride_of tile.width) + x) ≡ E.neutral_of 1) }
{
    let wide = stride(tile.width);
    let cells = repeated(alloc, tile.height as usize * wide, E::neutral_word())?;
    let made = trimmed(alloc, cells.as_slice(), wide, tile.width, tile.height)?;
    Ok(made)
}

/// The words of the tile: the extremum of a neutral pixel and what the set has under the box.
fn rectangle_words<E: WordExtremum>(
    alloc: Global,
    set: &Window<Bit>,
    offsets: OffsetBox,
    tile: Rect,
) -> Result<Vec<u64>, NoMemory>
    ensures packed { IfOk result (λ v. IsPacked tile.width tile.height v.items) }
    ensures cells { IfOk result (λ v. WordsHoldExtrema E.merge (E.neutral_of 1) (seen_at set.now) (box_offsets offsets) tile v.items) }
{
    let place = set.place();
    let across = seen_across(offsets, tile, place);
    let down = seen_down(offsets, tile, place);
    if across.count == 0 || down.count == 0 || tile.width == 0 || tile.height == 0 {
        let made = blank_words::<E>(alloc, tile)?;
        return Ok(made);
    }
    let looked = Looked {
        column: first_seen(tile.x, offsets.x0, across.skipped, place.x),
        row: first_seen(tile.y, offsets.y0, down.skipped, place.y),
        across: across.count,
        down: down.count,
    };
    let made = box_words::<E>(alloc, set, looked, tile)?;
    Ok(made)
}

/// The extremum of a neutral pixel and what the set has under the box, at each place of the tile: the erosion for `Min`,
/// the dilation for `Max`. Where the window has all that the frame has there, this is the extremum over the frame. It may
/// want memory (`NoMemory`).
pub fn rectangle<E: WordExtremum>(
    alloc: Global,
    set: &Window<Bit>,
    offsets: OffsetBox,
    tile: Rect,
) -> Result<Plane<Bit>, NoMemory>
    ensures over_window { IfOk result (IsSlidingExtremum E.merge (E.neutral_of 1) (seen_at set.now) (box_offsets offsets) tile) }
    ensures over_frame { IfOk result (λ r. (f : Raster ℕ) → IsWindow set.now f (box_offsets offsets) tile → IsSlidingExtremum E.merge (E.neutral_of 1) (cell_at f) (box_offsets offsets) tile r) }
{
    if let Some(pixel) = settled_box::<E>(set, offsets, tile) {
        let uniform = Words::filled(alloc, tile.width, tile.height, pixel)?;
        return Ok(Plane::of_words(uniform));
    }
    let words = rectangle_words::<E>(alloc, set, offsets, tile)?;
    Ok(plane_of(tile.width, tile.height, words))
}
