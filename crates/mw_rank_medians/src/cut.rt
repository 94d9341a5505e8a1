//! Ranks where a window shows few places of a square, as in a corner of the frame: the levels that are seen are gathered, and the
//! wanted one is found by halving the levels between which it lies.
ghost use Rattle.std.specs.Prelude.{◌≡◌, ℕ, ◌+◌, ◌<◌, ◌≤◌, ◌^◌, map, length, IfSome, OnOk};
ghost use Rattle.std.specs.Option.{option_to_list};
ghost use Rattle.mw_model.specs.declared.limits.TheConstants.{FAR_LIMIT};
ghost use Rattle.mw_model.specs.PlanSteps.{ranked};
ghost use Rattle.mw_model.specs.Rasters.{raster, cell_at};
ghost use Rattle.mw_model.specs.Windows.{seen_at};
ghost use Rattle.mw_rank.specs.Ranks.{levels_under, levels_at};
ghost use Rattle.mw_rank.specs.Tallies.{count_under};

use mw_model::{NoMemory, Offset};
use mw_rank::pixel::Grey;
use mw_rank::run::place_of;
use mw_rank::tile::Window;

/// The level that a window has in that row and column, both counted from its first place.
fn level_in<P: Grey>(window: &Window<P>, column: i64, row: i64) -> Option<u16>
    ensures levels { option_to_list result ≡ map P.level (option_to_list (cell_at (raster window.now.place.width window.now.place.height window.now.cells) column row)) }
    ensures small { IfSome result (λ s. s ≤ P.top_level) }
{
    let place = window.place();
    if column < 0 || row < 0 || column >= i64::from(place.width) || row >= i64::from(place.height) {
        return None;
    }
    let at = row as usize * place.width as usize + column as usize;
    Some(window.samples()[at].value())
}

/// The level that is seen at an offset from column x of row y of the frame.
pub(crate) fn level_at<P: Grey>(window: &Window<P>, offset: Offset, x: u64, y: u64) -> Option<u16>
    requires near { x ≤ FAR_LIMIT }
    requires high { y ≤ FAR_LIMIT }
    ensures levels { option_to_list result ≡ levels_at P.level (seen_at window.now) offset x y }
    ensures small { IfSome result (λ s. s ≤ P.top_level) }
{
    let place = window.place();
    let column = place_of(x, offset.dx, place.x);
    let row = place_of(y, offset.dy, place.y);
    level_in(window, column, row)
}

/// Gathers the levels that are seen under the offsets placed at column x of row y of the frame.
pub(crate) fn gather<P: Grey>(
    seen: &mut Vec<u16>,
    window: &Window<P>,
    offsets: &[Offset],
    x: u64,
    y: u64,
) -> Result<(), NoMemory>
    requires near { x ≤ FAR_LIMIT }
    requires high { y ≤ FAR_LIMIT }
    ensures levels { OnOk result (seen.new.items ≡ levels_under P.level (seen_at window.now) offsets.now x y) }
    ensures small { OnOk result (count_under (P.top_level + 1) seen.new.items ≡ length seen.new.items) }
{
    seen.clear();
    for offset in offsets {
        if let Some(level) = level_at(window, *offset, x, y) {
            seen.push(level)?;
        }
    }
    Ok(())
}

/// How many of the levels are below that one.
fn count_below(levels: &[u16], limit: u16) -> u16
    requires { length levels.now < 2 ^ 16 }
    ensures { result ≡ count_under limit levels.now }
{
    let mut count = 0u16;
    for level in levels {
        count += u16::from(*level < limit);
    }
    count
}

/// The level that is number n of those in rising order.
fn halved(levels: &[u16], n: u16, top: u16) -> u16
    requires few { length levels.now < 2 ^ 16 }
    requires some { 1 ≤ n }
    requires within { n ≤ count_under (top + 1) levels.now }
    ensures few { count_under result levels.now < n }
    ensures enough { n ≤ count_under (result + 1) levels.now }
    ensures small { result ≤ top }
{
    if count_below(levels, top) < n {
        return top;
    }
    let mut low = 0u32;
    let mut end = u32::from(top) + 1;
    'halving: while low + 1 < end {
        let middle = low + (end - low) / 2;
        if count_below(levels, middle as u16) < n {
            low = middle;
        } else {
            end = middle;
        }
    }
    low as u16
}

/// The greatest of some levels.
fn greatest(levels: &[u16]) -> u16
    requires { 1 ≤ length levels.now }
    ensures few { count_under result levels.now < length levels.now }
    ensures enough { count_under (result + 1) levels.now ≡ length levels.now }
{
    let mut greatest = 0u16;
    for level in levels {
        greatest = greatest.max(*level);
    }
    greatest
}

/// Of levels up to a top in rising order number k, or the last where there are fewer; 0 where there is none.
pub(crate) fn number_of(levels: &[u16], k: u32, top: u16) -> u16
    requires few { length levels.now < 2 ^ 16 }
    requires top { count_under (top + 1) levels.now ≡ length levels.now }
    ensures level { result ≡ ranked k levels.now }
    ensures small { result ≤ top }
{
    if levels.is_empty() {
        return 0;
    }
    let n = k.min(levels.len() as u32).max(1);
    if n as usize == levels.len() {
        return greatest(levels).min(top);
    }
    halved(levels, n as u16, top)
}
