//! Windows of one pixel throughout, as most are in masks of few or of compact grains. What is seen of such a window is that pixel
//! or nothing: so its extremum is that pixel wherever anything is seen, and everywhere where the pixel is the neutral one.
ghost use Rattle.std.specs.Prelude.{◌≡◌, ◌↔◌, ℕ, ◌+◌, ◌*◌, ◌<◌, ◌≤◌, ℤ, pos, ◌+ℤ◌, ◌-ℤ◌, ◌≤ℤ◌, length, flat_map, fold, cond, IfSome, IsTrue};
ghost use Rattle.std.specs.Int.{bit_at};
ghost use Rattle.std.specs.List.{AllByRecursion};
ghost use Rattle.mw_model.specs.declared.limits.TheConstants.{FAR_LIMIT};
ghost use Rattle.mw_model.specs.Rectangles.{box_offsets};
ghost use Rattle.mw_model.specs.Rasters.{seen_under};
ghost use Rattle.mw_model.specs.Windows.{seen_at};
ghost use Rattle.mw_offset.specs.mw_element_runs.Runs.{run_offsets, AreEitherWay, IsRun};
ghost use Rattle.mw_offset.specs.mw_pixel_words.Packed.{bit_of, stride_of};
ghost use Rattle.mw_bits.specs.Uniform.{HasOnly, SideStays, TileStays, SomeStays};

use crate::WordExtremum;
use crate::held::{row_of, words_of};
use mw_model::{Offset, OffsetBox, Rect};
use mw_offset::pixel::Bit;
use mw_offset::run::Run;
use mw_offset::tile::Window;

/// Whether no bit of the words is set.
fn are_clear(words: &[u64]) -> bool
    ensures { IsTrue result ↔ ((q : ℕ) → bit_of words.now q ≡ 0) }
{
    for word in words {
        if *word != 0 {
            return false;
        }
    }
    true
}

/// Whether the set has no pixel. The first word that has one ends the look.
pub fn is_blank(set: &Window<Bit>) -> bool
    ensures only { IsTrue result ↔ HasOnly 0 set.now.cells }
    ensures size { length set.now.cells ≡ set.now.place.height * set.now.place.width }
{
    are_clear(words_of(set))
}

/// Whether all words have all bits.
fn are_full(words: &[u64]) -> bool
    ensures { IsTrue result → (q : ℕ) → q < 64 * length words.now → bit_of words.now q ≡ 1 }
{
    for word in words {
        if *word != u64::MAX {
            return false;
        }
    }
    true
}

/// Whether the lowest bits of the word are set, so many.
fn has_lowest(word: u64, count: u32) -> bool
    requires { (0 < count) × (count < 64) }
    ensures { IsTrue result → (i : ℕ) → i < count → bit_at word i ≡ 1 }
{
    let mask = (1 << count) - 1;
    word & mask == mask
}

/// Whether the row has all its pixels.
fn is_full_row(row: &[u64], width: u32) -> bool
    requires { length row.now ≡ stride_of width }
    ensures { IsTrue result → (x : ℕ) → x < width → bit_of row.now x ≡ 1 }
{
    let whole = (width / 64) as usize;
    let rest = width % 64;
    if !are_full(&row[..whole]) {
        return false;
    }
    rest == 0 || has_lowest(row[whole], rest)
}

/// Whether the window has all its pixels.
fn is_full(set: &Window<Bit>) -> bool
    ensures { IsTrue result → HasOnly 1 set.now.cells }
{
    let place = set.place();
    let _words = words_of(set);
    for y in 0..place.height {
        if !is_full_row(row_of(set, y), place.width) {
            return false;
        }
    }
    true
}

/// The pixel that the window has at all places.
fn only_pixel(set: &Window<Bit>) -> Option<bool>
    ensures { IfSome result (λ b. HasOnly (cond b 1 0) set.now.cells) }
{
    if is_blank(set) {
        return Some(false);
    }
    if is_full(set) {
        return Some(true);
    }
    None
}

/// Whether the pixel is the neutral one.
fn is_neutral<E: WordExtremum>(pixel: bool) -> bool
    ensures { IsTrue result → E.neutral_of 1 ≡ cond pixel 1 0 }
{
    let word = if pixel { u64::MAX } else { 0 };
    word == E::neutral_word()
}

/// Where a step takes the tile's first place, counted from `first`.
fn moved(tile: u32, step: i32, first: u32) -> i64
    ensures value { result ≡ pos tile +ℤ step -ℤ pos first }
    ensures high { result ≤ℤ pos FAR_LIMIT }
{
    i64::from(tile) + i64::from(step) - i64::from(first)
}

/// Whether a step moves a side of the tile to a part of the window's.
fn side_stays(tile: u32, side: u32, step: i32, first: u32, count: u32) -> bool
    ensures { IsTrue result → SideStays tile side step first count }
{
    let from = moved(tile, step, first);
    from >= 0 && from + i64::from(side) <= i64::from(count)
}

/// Whether a step to the right and down moves the tile to a part of the window.
fn stays(tile: Rect, dx: i32, dy: i32, place: Rect) -> bool
    ensures { IsTrue result → TileStays tile dx dy place }
{
    side_stays(tile.x, tile.width, dx, place.x, place.width)
        && side_stays(tile.y, tile.height, dy, place.y, place.height)
}

/// How many columns a step leads past the window's left side. Any answer is right.
fn columns_past(tile: u32, step: i16, first: u32) -> u64 {
    let past = i64::from(first) - i64::from(tile) - i64::from(step);
    past.max(0) as u64
}

/// Whether some offset of the run moves the tile to a part of the window. If any does, the first does that leads past no side
/// on the left.
fn run_stays(tile: Rect, run: Run, place: Rect) -> bool
    requires { IsRun run }
    ensures { IsTrue result → (i : ℕ) × (i < run.count) × TileStays tile (run.dx +ℤ pos i) run.dy place }
{
    let passed = columns_past(tile.x, run.dx, place.x);
    if passed >= u64::from(run.count) {
        return false;
    }
    let dx = i32::from(run.dx) + passed as i32;
    stays(tile, dx, i32::from(run.dy), place)
}

/// Whether some offset moves the tile to a part of the window, so that each place of the tile sees a pixel.
fn some_stays(tile: Rect, runs: &[Run], place: Rect) -> bool
    requires { AllByRecursion IsRun runs.now }
    ensures { IsTrue result → SomeStays tile (flat_map run_offsets runs.now) place }
{
    for i in 0..runs.len() {
        if run_stays(tile, runs[i], place) {
            return true;
        }
    }
    false
}

/// The pixel that the extremum has at each place of the tile, where the window is uniform and tells it.
pub(crate) fn settled<E: WordExtremum>(
    set: &Window<Bit>,
    offsets: &[Offset],
    runs: &[Run],
    tile: Rect,
) -> Option<bool>
    requires either { AreEitherWay offsets.now runs.now }
    requires runs { AllByRecursion IsRun runs.now }
    ensures { IfSome result (λ b. (x y : ℕ) → x < tile.width → y < tile.height → fold E.merge (E.neutral_of 1) (seen_under (seen_at set.now) offsets.now (tile.x + x) (tile.y + y)) ≡ cond b 1 0) }
{
    let place = set.place();
    let _words = words_of(set);
    if let Some(pixel) = only_pixel(set) {
        if is_neutral::<E>(pixel) {
            return Some(pixel);
        }
        if some_stays(tile, runs, place) {
            return Some(pixel);
        }
    }
    None
}

/// The pixel that `settled` finds, under a box, whose first offset is looked at alone.
pub(crate) fn settled_box<E: WordExtremum>(
    set: &Window<Bit>,
    offsets: OffsetBox,
    tile: Rect,
) -> Option<bool>
    ensures { IfSome result (λ b. (x y : ℕ) → x < tile.width → y < tile.height → fold E.merge (E.neutral_of 1) (seen_under (seen_at set.now) (box_offsets offsets) (tile.x + x) (tile.y + y)) ≡ cond b 1 0) }
{
    let place = set.place();
    let _words = words_of(set);
    if let Some(pixel) = only_pixel(set) {
        if is_neutral::<E>(pixel) {
            return Some(pixel);
        }
        if offsets.x0 <= offsets.x1 && offsets.y0 <= offsets.y1 {
            if stays(tile, offsets.x0, offsets.y0, place) {
                return Some(pixel);
            }
        }
    }
    None
}
