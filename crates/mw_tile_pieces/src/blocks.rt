//! Blocks: what a window and one of its pieces have in common.

ghost use Rattle.std.specs.Prelude.{◌+◌, ◌*◌, ◌<◌, ◌≤◌, ◌^◌, MatchOption};
ghost use Rattle.mw_tile.specs.mw_pixel_words.Packed.{stride_of};
ghost use Rattle.mw_tile_pieces.specs.Blocks.{AreApart, IsCommon};

use crate::overlap;
use mw_model::Rect;
use mw_tile::words::stride;

/// Columns and rows of cells that are copied from one list of cells into another.
#[derive(Clone, Copy)]
pub(crate) struct Block {
    /// Where the block begins in the list that is written, and how many cells a row of it has.
    pub(crate) start: usize,
    pub(crate) wide: usize,
    /// Where the block begins in the list that is read, and how many cells a row of that has.
    pub(crate) first: usize,
    pub(crate) own: usize,
    pub(crate) width: usize,
    pub(crate) high: usize,
}

/// The block that the rectangles have in common, in lists of so many cells a row.
pub(crate) fn common(place: Rect, held: Rect, wide: usize, own: usize) -> Option<Block>
    requires across { place.x + place.width < 2 ^ 32 }
    requires down { place.y + place.height < 2 ^ 32 }
    requires across_other { held.x + held.width < 2 ^ 32 }
    requires down_other { held.y + held.height < 2 ^ 32 }
    requires wide { place.width ≤ wide }
    requires own { held.width ≤ own }
    requires small { wide ≤ 2 ^ 32 }
    requires small_other { own ≤ 2 ^ 32 }
    ensures { MatchOption result (AreApart place held) (IsCommon place held wide own) }
{
    let here = overlap(place, held);
    if here.width == 0 || here.height == 0 {
        return None;
    }
    Some(Block {
        start: (here.y - place.y) as usize * wide + (here.x - place.x) as usize,
        wide,
        first: (here.y - held.y) as usize * own + (here.x - held.x) as usize,
        own,
        width: here.width as usize,
        high: here.height as usize,
    })
}

/// What rectangles of sets have in common, as a block in bits of their words.
pub(crate) fn common_words(place: Rect, held: Rect) -> Option<Block>
    requires across { place.x + place.width < 2 ^ 32 }
    requires down { place.y + place.height < 2 ^ 32 }
    requires across_other { held.x + held.width < 2 ^ 32 }
    requires down_other { held.y + held.height < 2 ^ 32 }
    ensures { MatchOption result (AreApart place held) (IsCommon place held (64 * stride_of place.width) (64 * stride_of held.width)) }
{
    common(
        place,
        held,
        64 * stride(place.width),
        64 * stride(held.width),
    )
}
