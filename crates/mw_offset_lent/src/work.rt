//! What is done for a tile: how its cells are laid out, and which of its rows of results need none of them.
ghost use Rattle.std.specs.Prelude.{◌≡◌, ℕ, ◌+◌, ◌*◌, ◌<◌, ◌≤◌, ◌^◌, pos, ◌-ℤ◌};
ghost use Rattle.std.specs.List.{AllByRecursion};
ghost use Rattle.mw_offset_lent.specs.Offsets.{LeadsWithin};
ghost use Rattle.mw_offset_lent.specs.Parts.{IsPartOf};

use crate::pairs::Split;
use crate::parts::{Part, part_of};
use crate::places::Around;
use mw_model::Offset;
use mw_tile_lent::Rect;

/// How cells are laid out: for a tile, with so much around it, from this column and row of the place that is lent on, in rows of
/// `wide`, of which the place has a part, and for `most` rows of results at one time.
#[derive(Clone, Copy)]
pub(crate) struct Laid {
    pub tile: Rect,
    pub around: Around,
    pub column: i64,
    pub row: i64,
    pub wide: usize,
    pub part: Part,
    pub most: usize,
}

/// How many cells are laid out at one time, so that they stay in the processor's cache.
const CELLS: usize = 131072;

/// How many rows of results are laid out at one time: no more than the tile has. Where rows are read in place, cells are wanted for a
/// few rows and for the edges alone.
fn rows_at_once(in_place: bool, wide: usize, down: usize, height: u32) -> usize
    requires wide { 0 < wide }
    requires down { down ≤ 64 }
    ensures some { 0 < result }
    ensures few { result ≤ 2 ^ 18 }
{
    let many = if in_place { 0 } else { CELLS / wide };
    let most = many.max(32).max(2 * down);
    most.min(height as usize).max(1)
}

/// How cells are laid out for a tile.
pub(crate) fn layout_of(place: Rect, tile: Rect, around: Around, lanes: usize) -> Laid
    requires across { around.across ≤ 64 }
    requires down { around.down ≤ 64 }
    requires some { 0 < tile.width }
    requires lanes { lanes ≤ 32 }
    ensures tile { result.tile ≡ tile }
    ensures around { result.around ≡ around }
    ensures column { result.column ≡ pos tile.x -ℤ pos around.across -ℤ pos place.x }
    ensures row { result.row ≡ pos tile.y -ℤ pos around.down -ℤ pos place.y }
    ensures wide { result.wide ≡ tile.width + 2 * around.across }
    ensures part { IsPartOf result.column result.wide place.width result.part }
    ensures some { 0 < result.most }
    ensures few { result.most ≤ 2 ^ 18 }
{
    let column = i64::from(tile.x) - around.across as i64 - i64::from(place.x);
    let row = i64::from(tile.y) - around.down as i64 - i64::from(place.y);
    let wide = tile.width as usize + 2 * around.across;
    let in_place = lines_of(place, tile, around, lanes) > 0;
    Laid {
        tile,
        around,
        column,
        row,
        wide,
        part: part_of(column, wide, place.width),
        most: rows_at_once(in_place, wide, around.down, tile.height),
    }
}

/// How cells are laid out, and the places of offsets: among cells that are laid out for the tile, among those of the place itself, and
/// among those that are laid out for an edge in rows of `narrow`. So many rows of the place, all or none, are read where they stand.
#[derive(Clone, Copy)]
pub(crate) struct Work<'a> {
    pub laid: Laid,
    pub split: Split<'a>,
    pub inner: Split<'a>,
    pub edges: &'a [usize],
    pub narrow: usize,
    pub lines: usize,
}

/// Some rows of results, from row y of the tile on.
#[derive(Clone, Copy)]
pub(crate) struct Strip {
    pub y: usize,
    pub high: usize,
}

/// How far up and down offsets may lead for rows to be read where they stand. Under taller elements rows that are a power of two apart
/// would push one another out of the cache.
const LOW: usize = 3;

/// How many columns and rows a tile has at least for that. In a smaller one the edges, and the rows at the top and the bottom, would
/// cost more than is gained.
const COLUMNS: u32 = 800;

const ROWS: u32 = 32;

/// How many rows of a place are read where they stand: all, or none.
pub(crate) fn lines_of(place: Rect, tile: Rect, around: Around, lanes: usize) -> usize
    requires { lanes ≤ 32 }
    ensures all { result ≤ place.height }
    ensures left { 0 < result → tile.x ≡ place.x }
    ensures right { 0 < result → tile.width ≡ place.width }
    ensures across { 0 < result → around.across ≤ lanes }
    ensures room { 0 < result → 4 * lanes ≤ tile.width }
{
    if around.down > LOW || around.across > lanes {
        return 0;
    }
    if tile.x != place.x || tile.width != place.width {
        return 0;
    }
    if tile.width < COLUMNS || tile.height < ROWS {
        return 0;
    }
    place.height as usize
}

/// The offsets, if rows are read where they stand.
pub(crate) fn standing_of(offsets: &[Offset], lines: usize) -> &[Offset]
    ensures all { 0 < lines → result.now ≡ offsets.entry.now }
    ensures within { (columns rows : ℕ) → AllByRecursion (LeadsWithin columns rows) offsets.entry.now → AllByRecursion (LeadsWithin columns rows) result.now }
{
    if lines == 0 { &offsets[..0] } else { offsets }
}
