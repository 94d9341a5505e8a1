//! Ranks of the pixels of a tile: a rank is 1 where few enough of the pixels that are seen are not of the set, and some is. The
//! first are counted, 128 places at a time; the second is a dilation.
ghost use Rattle.std.specs.Prelude.{◌≡◌, ℕ, All, cond, nat_lt, ◌+◌, ◌-◌, ◌*◌, ◌/◌, ◌^◌, ◌<◌, ◌≤◌, min, max, pos, negsuc, ◌+ℤ◌, ◌-ℤ◌, ◌≤ℤ◌, length, vec_len, IfOk, IfSome, IsTrue};
ghost use Rattle.std.specs.List.{AllByRecursion};
ghost use Rattle.mw_model.specs.declared.limits.TheConstants.{FAR_LIMIT};
ghost use Rattle.mw_model.specs.Rasters.{raster, cell_at};
ghost use Rattle.mw_model.specs.Windows.{seen_at};
ghost use Rattle.mw_bits.specs.mw_lane.Shifted.{merge_at};
ghost use Rattle.mw_bits.specs.mw_pixel_words.Packed.{bit_of, stride_of, IsPacked};
ghost use Rattle.mw_bits.specs.mw_element_runs.Runs.{RunIsInside};
ghost use Rattle.mw_bits.specs.Layouts.{ExtentIsNear};
ghost use Rattle.mw_rank_bits.specs.Elements.{lacks_under, IsSetRank, IsMet};
ghost use Rattle.mw_rank_bits.specs.Walks.{AreMoves, WordsHaveRoom, HasBelow};

use crate::costs::{Load, is_small, pays};
use crate::element::{Moves, least_load, load_of, moves_of, single_runs};
use crate::walk::{Places, Rows, walk_all};
use mw_bits::pixel::{Bit, Max, Min, Plane};
use mw_bits::run::{Extent, Run, columns_after, extent_of, first_column, first_row, rows_after};
use mw_bits::spreading::spread;
use mw_bits::tile::Window;
use mw_bits::word_rows::{Both, flip_words, merge_words};
use mw_bits::words::{Words, repeated, stride, trimmed};
use mw_bits::{extremum, is_near};
use mw_model::{NoMemory, Offset, Rect};
use std::alloc::Global;

/// How many digits a counter has, and half of what they hold.
#[derive(Clone, Copy)]
struct Digits {
    count: usize,
    half: u64,
}

/// Digits that hold twice as much as is counted.
fn digits_for(count: usize) -> Digits
    requires { count < 2 ^ 16 }
    ensures some { 3 ≤ result.count }
    ensures few { result.count ≤ 17 }
    ensures half { result.half ≡ 2 ^ (result.count - 1) }
    ensures whole { 2 * result.half ≡ 2 ^ result.count }
    ensures room { count < result.half }
{
    if count < 16 {
        Digits { count: 5, half: 16 }
    } else if count < 32 {
        Digits { count: 6, half: 32 }
    } else if count < 64 {
        Digits { count: 7, half: 64 }
    } else if count < 256 {
        Digits {
            count: 9,
            half: 256,
        }
    } else if count < 1024 {
        Digits {
            count: 11,
            half: 1024,
        }
    } else if count < 4096 {
        Digits {
            count: 13,
            half: 4096,
        }
    } else {
        Digits {
            count: 17,
            half: 65536,
        }
    }
}

/// The pixels that are not of the set, in rows of so many words from the first column and row that is looked at; outside the
/// window there is none.
fn lacking(
    alloc: Global,
    set: &Window<Bit>,
    column: i64,
    row: i64,
    wide: usize,
    high: usize,
) -> Result<Vec<u64>, NoMemory>
    requires few { high ≤ 2 ^ 34 }
    requires narrow { wide ≤ 2 ^ 28 }
    requires low { negsuc FAR_LIMIT ≤ℤ column }
    requires far { column ≤ℤ pos FAR_LIMIT }
    requires near { row ≤ℤ pos FAR_LIMIT }
    ensures size { IfOk result (λ v. vec_len v ≡ high * wide + 1) }
    ensures cells { IfOk result (λ v. (x y : ℕ) → x < 64 * wide → y < high → bit_of v.items (y * (64 * wide) + x) ≡ 1 - merge_at min 1 (cell_at (raster set.now.place.width set.now.place.height set.now.cells) (column +ℤ pos x) (row +ℤ pos y))) }
{
    let mut cells = spread::<Min>(alloc, set, column, row, wide, high)?;
    flip_words(cells.as_mut_slice());
    Ok(cells)
}

/// In rows of pairs of words, the places at which the start and what is seen are below half of what so many digits hold.
fn below_words(
    alloc: Global,
    cells: &[u64],
    moves: &Moves,
    rows: Rows,
    digits: usize,
) -> Result<Vec<u64>, NoMemory>
    requires digits { 3 ≤ digits }
    requires few { digits ≤ 17 }
    requires small { rows.start + length moves.now.seen.items < 2 ^ digits }
    requires moves { AreMoves (64 * rows.wide) moves.now.seen.items moves.now.changes.entered.items moves.now.changes.left.items }
    requires seen { WordsHaveRoom cells.now moves.now.seen.items (2 * rows.pairs - 2) }
    requires left { (y : ℕ) → y + 1 < rows.high → WordsHaveRoom cells.now moves.now.changes.left.items (y * rows.wide + (2 * rows.pairs - 2)) }
    requires entered { (y : ℕ) → y + 1 < rows.high → WordsHaveRoom cells.now moves.now.changes.entered.items (y * rows.wide + (2 * rows.pairs - 2)) }
    requires some { 0 < rows.high }
    requires fits { rows.high * (2 * rows.pairs) < 2 ^ 64 }
    requires rows { rows.high * rows.wide + 2 * rows.pairs < 2 ^ 64 }
    ensures size { IfOk result (λ v. vec_len v ≡ rows.high * (2 * rows.pairs)) }
    ensures bits { IfOk result (λ v. HasBelow digits rows cells.now moves.now.seen.items v.items) }
{
    let mut planes = repeated(alloc, 2 * digits, 0)?;
    let mut out = repeated(alloc, rows.high * (2 * rows.pairs), 0)?;
    let places = Places {
        seen: moves.seen.as_slice(),
        entered: moves.changes.entered.as_slice(),
        left: moves.changes.left.as_slice(),
    };
    walk_all(
        planes.as_mut_slice(),
        cells,
        places,
        rows,
        out.as_mut_slice(),
    );
    Ok(out)
}

/// The words of the tile: the pixels that see fewer than so many pixels that are not of the set. None where it does not pay.
fn few_lacking(
    alloc: Global,
    set: &Window<Bit>,
    runs: &[Run],
    extent: Extent,
    load: Load,
    number: u32,
    tile: Rect,
) -> Result<Option<Vec<u64>>, NoMemory>
    requires inside { AllByRecursion (RunIsInside extent) runs.now }
    requires near { ExtentIsNear extent }
    requires few { length runs.now < 2 ^ 16 }
    requires number { number ≤ length runs.now + 1 }
    requires some { (0 < tile.width) × (0 < tile.height) }
    requires small { (tile.width ≤ 2 ^ 31) × (tile.height ≤ 2 ^ 31) }
    ensures packed { IfOk result (λ o. IfSome o (λ v. IsPacked tile.width tile.height v.items)) }
    ensures cells { IfOk result (λ o. IfSome o (λ v. (x y : ℕ) → x < tile.width → y < tile.height → bit_of v.items (y * (64 * stride_of tile.width) + x) ≡ cond (nat_lt (lacks_under (seen_at set.now) runs.now (tile.x + x) (tile.y + y)) number) 1 0)) }
{
    let place = set.place();
    let pairs = (tile.width as usize + 127) / 128;
    let wide = 2 * pairs + columns_after(extent) / 64 + 1;
    let high = tile.height as usize + rows_after(extent);
    let column = first_column(tile, extent, place);
    let row = first_row(tile, extent, place);
    let digits = digits_for(runs.len());
    let moves = moves_of(alloc, runs, extent, 64 * wide)?;
    if !pays(load_of(&moves, load), tile, place) {
        return Ok(None);
    }
    let cells = lacking(alloc, set, column, row, wide, high)?;
    let rows = Rows {
        high: tile.height as usize,
        wide,
        pairs,
        start: digits.half - u64::from(number),
    };
    let out = below_words(alloc, cells.as_slice(), &moves, rows, digits.count)?;
    let made = trimmed(alloc, out.as_slice(), 2 * pairs, tile.width, tile.height)?;
    Ok(Some(made))
}

/// Whether the tile has places, and few enough to lay out an element around it.
fn has_layout(tile: Rect) -> bool
    ensures { IsTrue result → (0 < tile.width) × (0 < tile.height) × (tile.width ≤ 2 ^ 31) × (tile.height ≤ 2 ^ 31) }
{
    tile.width > 0 && tile.height > 0 && tile.width <= 2147483648 && tile.height <= 2147483648
}

/// Fewer than this may lack where number k of so many is wanted.
fn number_of(k: u32, count: usize) -> u32
    requires { count < 2 ^ 16 }
    ensures { result ≡ min (max k 1) (count + 1) }
{
    k.max(1).min(count as u32 + 1)
}

/// The pixels of these words that are in the plane too.
fn met(mut words: Vec<u64>, plane: &Plane<Bit>) -> Plane<Bit>
    requires { IsPacked plane.now.width plane.now.height words.items }
    ensures { IsMet words.items plane.now result }
{
    merge_words::<Both>(words.as_mut_slice(), plane.words().words());
    Plane::of_words(Words::new(plane.width(), plane.height(), words))
}

/// What is so of each set: a call that is made only for this fact.
fn is_sound(set: &Window<Bit>)
    ensures { All (λ s. s ≤ 1) set.now.cells }
{
    let _words = set.plane().words();
}

/// At each place of the tile, of the pixels that a set has under the element in rising order, number k, counted from 1, or the
/// last where there are fewer; 0 where there is none. None where that does not pay, or offsets lie too far apart.
pub fn rank_by_words(
    alloc: Global,
    set: &Window<Bit>,
    offsets: &[Offset],
    k: u32,
    tile: Rect,
) -> Result<Option<Plane<Bit>>, NoMemory>
    requires { length offsets.now < 2 ^ 16 }
    ensures { IfOk result (λ o. IfSome o (IsSetRank k (seen_at set.now) offsets.now tile)) }
{
    if is_small(offsets.len(), tile) {
        return Ok(None);
    }
    if !has_layout(tile) {
        return Ok(None);
    }
    let held = single_runs(alloc, offsets)?;
    let runs = held.as_slice();
    let Some(extent) = extent_of(runs) else {
        return Ok(None);
    };
    if !is_near(extent) {
        return Ok(None);
    }
    let load = least_load(runs, extent, digits_for(offsets.len()).count);
    if !pays(load, tile, set.place()) {
        return Ok(None);
    }
    is_sound(set);
    let number = number_of(k, offsets.len());
    let Some(words) = few_lacking(alloc, set, runs, extent, load, number, tile)? else {
        return Ok(None);
    };
    let seen = extremum::<Max>(alloc, set, offsets, tile)?;
    let ranks = met(words, &seen);
    Ok(Some(ranks))
}
