//! The medians of a tile, where they can be made without a copy of any row.
ghost use Rattle.std.specs.Prelude.{◌≡◌, ℕ, ◌+◌, ◌*◌, ◌≤◌, length, IfErr, IfOk, IsTrue, false, true};
ghost use Rattle.mw_model.specs.Rasters.{Raster, raster, cell_at};
ghost use Rattle.mw_model.specs.Windows.{seen_at};
ghost use Rattle.mw_rank_medians.specs.mw_tile.Windows.{IsWindow};
ghost use Rattle.mw_rank_medians.specs.mw_rank.Ranks.{IsRank};
ghost use Rattle.mw_rank_lent.specs.Middles.{AreInner, FitsMedians, HasMedians, HasTile, IsMedianAbout, IsMiddle};

use crate::blocks::{Area, put_blocks};
use crate::broad::Broad;
use crate::squares::{Square, square_about};
use mw_model::{NoMemory, Offset, Rect};
use mw_rank_medians::pixel::copies;
use mw_tile_lent::Lent;
use std::alloc::Global;

/// So many rows are made at a time: enough for a whole vector down the columns at their sides, and no more. These columns are read
/// before the rows are, and the more long rows were begun so, the longer it took to read them.
const ROWS: u32 = 16;

/// Whether the tile has whole rows of the place, a vector of columns between its sides and as many rows, and the place has all that
/// the square reaches above and below.
fn is_inner<P: Broad>(lent: &Lent<P>, square: Square, tile: Rect) -> bool
    requires { IsMiddle square }
    ensures inner { IsTrue result → AreInner lent.now square tile.y tile.height }
    ensures wide { IsTrue result → P.WIDTH + 2 * square.reach ≤ lent.now.place.width }
    ensures tall { IsTrue result → P.WIDTH ≤ tile.height }
    ensures fits { FitsMedians P.WIDTH square.reach lent.now.place tile → IsTrue result }
    ensures columns { IsTrue result → (tile.x ≡ lent.now.place.x) × (tile.width ≡ lent.now.place.width) }
{
    let place = lent.place();
    let reach = u64::from(square.reach);
    let vector = P::WIDTH as u64;
    let above = u64::from(place.y) + reach <= u64::from(tile.y);
    let last = u64::from(tile.y) + u64::from(tile.height) + reach;
    let below = last <= u64::from(place.y) + u64::from(place.height);
    let wide = vector + 2 * reach <= u64::from(place.width);
    let tall = vector <= u64::from(tile.height);
    tile.x == place.x && tile.width == place.width && above && below && wide && tall
}

/// Writes the medians of rows that have all that the square reaches above and below.
fn put_all<P: Broad>(
    alloc: Global,
    lent: &Lent<P>,
    square: Square,
    tile: Rect,
    out: &mut [P],
) -> Result<(), NoMemory>
    requires middle { IsMiddle square }
    requires inner { AreInner lent.now square tile.y tile.height }
    requires wide { P.WIDTH + 2 * square.reach ≤ lent.now.place.width }
    requires tall { P.WIDTH ≤ tile.height }
    requires room { length out.old ≡ tile.height * lent.now.place.width }
    ensures made { IfOk result (λ _. HasMedians P.level lent.now square tile.y tile.height out.new) }
    ensures kept { IfErr result (λ _. out.new ≡ out.old) }
{
    let rows = tile.height.min(ROWS);
    let (reach, side) = (square.reach as usize, square.side as usize);
    let long = rows as usize + side - 1;
    let mut lines = copies(alloc, (side - 1 + reach) * long, P::TOP)?;
    let mut left = copies(alloc, reach * rows as usize, P::TOP)?;
    let mut right = copies(alloc, reach * rows as usize, P::TOP)?;
    let area = Area {
        square,
        y: tile.y,
        height: tile.height,
        rows,
    };
    put_blocks(
        lent,
        area,
        lines.as_mut_slice(),
        left.as_mut_slice(),
        right.as_mut_slice(),
        out,
    );
    Ok(())
}

/// Writes the medians of a tile under a square, if it can. Says whether it did: where not, it writes nothing.
fn put_square<P: Broad>(
    alloc: Global,
    lent: &Lent<P>,
    square: Square,
    tile: Rect,
    out: &mut [P],
) -> Result<bool, NoMemory>
    requires middle { IsMiddle square }
    requires room { length out.old ≡ tile.height * tile.width }
    ensures made { IfOk result (λ done. done ≡ true → HasTile P.level lent.now square tile out.new) }
    ensures taken { FitsMedians P.WIDTH square.reach lent.now.place tile → IfOk result (λ done. done ≡ true) }
    ensures left_out { IfOk result (λ done. done ≡ false → out.new ≡ out.old) }
    ensures kept { IfErr result (λ _. out.new ≡ out.old) }
{
    if !is_inner(lent, square, tile) {
        return Ok(false);
    }
    put_all(alloc, lent, square, tile, out)?;
    Ok(true)
}

/// Writes the ranks of a tile, where they are medians under a square of 3 x 3 or 5 x 5 offsets about its origin, and the tile has
/// whole rows of what is lent, which has all rows that the square reaches. Says whether it did: where not, it writes nothing. It
/// may want memory (`NoMemory`), but only before it writes.
pub fn medians_into<P: Broad>(
    alloc: Global,
    lent: &Lent<P>,
    offsets: &[Offset],
    k: u32,
    tile: Rect,
    out: &mut [P],
) -> Result<bool, NoMemory>
    requires { length out.old ≡ tile.height * tile.width }
    ensures over_window { IfOk result (λ done. done ≡ true → IsRank P.level k (seen_at lent.now) offsets.now tile (raster tile.width tile.height out.new)) }
    ensures over_frame { IfOk result (λ done. done ≡ true → (f : Raster P) → IsWindow lent.now f offsets.now tile → IsRank P.level k (cell_at f) offsets.now tile (raster tile.width tile.height out.new)) }
    ensures taken { (reach : ℕ) → IsMedianAbout reach k offsets.now → FitsMedians P.WIDTH reach lent.now.place tile → IfOk result (λ done. done ≡ true) }
    ensures left_out { IfOk result (λ done. done ≡ false → out.new ≡ out.old) }
    ensures kept { IfErr result (λ _. out.new ≡ out.old) }
{
    match square_about(offsets, k) {
        None => Ok(false),
        Some(square) => put_square(alloc, lent, square, tile, out),
    }
}
