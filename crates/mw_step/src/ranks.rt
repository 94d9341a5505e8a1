//! Ranks of sets: none where a set has no pixel, and else counted 64 pixels a word where that pays. Elsewhere the bits of a tile's
//! window are written out as levels of one byte and ranked as those. What is written out is one window of one tile, and never a
//! plane.

ghost use Rattle.std.specs.Prelude.{◌≡◌, ℕ, ◌<◌, ◌^◌, length, IfOk};
ghost use Rattle.mw_model.specs.Windows.{seen_at};
ghost use Rattle.mw_rank_rows.specs.mw_rank.Ranks.{IsRank};

use crate::thresholds::is_sound;
use mw_model::{NoMemory, Offset, Rect};
use mw_rank_bits::bits::{as_levels, at_least, is_blank};
use mw_rank_bits::rank_by_words;
use mw_rank_rows::rank_by_rows;
use mw_step_task::pixel::{Bit, Plane};
use mw_step_task::tile::Window;
use std::alloc::Global;

/// The ranks of a set, as levels of one byte.
fn rank_by_levels(
    alloc: Global,
    set: &Window<Bit>,
    offsets: &[Offset],
    k: u32,
    tile: Rect,
) -> Result<Plane<Bit>, NoMemory>
    requires { length offsets.now < 2 ^ 16 }
    ensures { IfOk result (IsRank (λ (n : ℕ). n) k (seen_at set.now) offsets.now tile) }
{
    is_sound(set);
    let window = as_levels(alloc, set)?;
    let ranks = rank_by_rows(alloc, &window, offsets, k, tile)?;
    let (width, height) = (tile.width, tile.height);
    let place = Rect {
        x: 0,
        y: 0,
        width,
        height,
    };
    let levels = Window::new(width, height, place, ranks);
    Ok(at_least(alloc, &levels, 1)?)
}

/// At each place of the tile, of the pixels that a set has under the element in rising order, number k, counted from 1, or
/// the last where there are fewer; 0 where there is none.
pub(crate) fn rank_of_set(
    alloc: Global,
    set: &Window<Bit>,
    offsets: &[Offset],
    k: u32,
    tile: Rect,
) -> Result<Plane<Bit>, NoMemory>
    requires { length offsets.now < 2 ^ 16 }
    ensures { IfOk result (IsRank (λ (n : ℕ). n) k (seen_at set.now) offsets.now tile) }
{
    if is_blank(set) {
        return Ok(Plane::filled(alloc, tile.width, tile.height, Bit::new(false))?);
    }
    match rank_by_words(alloc, set, offsets, k, tile)? {
        Some(ranks) => Ok(ranks),
        None => rank_by_levels(alloc, set, offsets, k, tile),
    }
}
