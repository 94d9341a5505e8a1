//! Boxes on places of what is lent, and which columns of theirs it has.
ghost use Rattle.std.specs.Prelude.{◌≡◌, ◌↔◌, ◌+◌, ◌-◌, ◌<◌, ◌≤◌, IsTrue};
ghost use Rattle.mw_line_lent.specs.Parts.{IsOverlap};
ghost use Rattle.mw_line_lent.specs.Boxes.{AreBoxesOf, IsSuited};

use crate::lanes::Laned;
use mw_line::{first_seen, seen_across, seen_down};
use mw_model::OffsetBox;
use mw_tile_lent::Rect;

/// The cells of a line that a place has: `count` after the `behind` first ones of the line, from column `ahead` of the place on.
#[derive(Clone, Copy)]
pub(crate) struct Part {
    pub ahead: usize,
    pub behind: usize,
    pub count: usize,
}

/// At each place the extremum of `across` by `down` cells from one on, which for the first place stands in this column and row of
/// the place that is lent; there are `width` places in each of `height` rows.
#[derive(Clone, Copy)]
pub(crate) struct Boxes {
    pub column: i64,
    pub row: i64,
    pub across: usize,
    pub down: usize,
    pub width: usize,
    pub height: usize,
    pub part: Part,
}

/// The part that a side of `size` cells has of a run of `long` cells, of which the first one has this number.
pub(crate) fn part_of(first: i64, long: usize, size: u32) -> Part
    ensures { IsOverlap first long size result }
{
    let away = first.unsigned_abs() as usize;
    let size = size as usize;
    if first < 0 {
        let behind = away.min(long);
        return Part {
            ahead: 0,
            behind,
            count: size.min(long - behind),
        };
    }
    let ahead = away.min(size);
    Part {
        ahead,
        behind: 0,
        count: (size - ahead).min(long),
    }
}

/// The boxes at the places of a tile, without the columns and rows of each from which nothing of the place is seen.
pub(crate) fn boxes_of(place: Rect, offsets: OffsetBox, tile: Rect) -> Boxes
    ensures { AreBoxesOf place offsets tile result }
{
    let across = seen_across(offsets, tile, place);
    let down = seen_down(offsets, tile, place);
    let column = first_seen(tile.x, offsets.x0, across.skipped, place.x);
    let row = first_seen(tile.y, offsets.y0, down.skipped, place.y);
    let width = tile.width as usize;
    let wide = width + across.count.saturating_sub(1);
    Boxes {
        column,
        row,
        across: across.count,
        down: down.count,
        width,
        height: tile.height as usize,
        part: part_of(column, wide, place.width),
    }
}

/// The longest side of boxes that are made here: by longer ones more is merged than by doubling.
pub(crate) const LONGEST: usize = 256;

/// Whether these boxes are made here.
pub(crate) fn is_suited<P: Laned>(boxes: Boxes) -> bool
    ensures { IsTrue result ↔ IsSuited P.WIDTH boxes }
{
    let across = boxes.across > 0 && boxes.across <= LONGEST;
    let down = boxes.down > 0 && boxes.down <= LONGEST;
    across && down && boxes.width >= P::WIDTH && boxes.part.count >= P::WIDTH
}
