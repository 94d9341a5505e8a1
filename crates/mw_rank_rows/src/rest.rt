//! What is left of a tile once no rows go together.
ghost use Rattle.std.specs.Prelude.{◌+◌, ◌<◌, ◌≤◌, ◌^◌, ◌++◌, ◌≡◌, length, drop, OnOk};
ghost use Rattle.mw_model.specs.Windows.{seen_at};
ghost use Rattle.mw_rank_counts.specs.mw_rank.Ranks.{HasRankRows, HasRanks};

use crate::rectangle::Wanted;
use mw_model::{NoMemory, Rect};
use mw_rank_counts::Counted;
use mw_rank_counts::pixel::Grey;
use mw_rank_counts::tile::Window;
use std::alloc::Global;

/// Adds the samples from that place on.
pub(crate) fn push_from<P: Grey>(out: &mut Vec<P>, made: &[P], skip: usize) -> Result<(), NoMemory>
    requires { skip ≤ length made.now }
    ensures { OnOk result (out.new.items ≡ out.old.items ++ drop skip made.now) }
{
    out.extend_from_slice(&made[skip..])?;
    Ok(())
}

/// Adds the ranks of the rows of the tile from that one on, each row apart.
pub(crate) fn push_rest<P: Counted>(
    alloc: Global,
    out: &mut Vec<P>,
    window: &Window<P>,
    wanted: Wanted,
    tile: Rect,
    done: u32,
) -> Result<(), NoMemory>
    requires few { length wanted.offsets.now < 2 ^ 16 }
    requires within { done ≤ tile.height }
    requires inside { tile.y + tile.height < 2 ^ 32 }
    requires rows { HasRankRows P.level wanted.k (seen_at window.now) wanted.offsets.now tile done out.old.items }
    ensures { OnOk result (HasRanks P.level wanted.entry.k (seen_at window.now) wanted.entry.offsets.now tile out.new.items) }
{
    if done == tile.height {
        return Ok(());
    }
    let rest = Rect {
        y: tile.y + done,
        height: tile.height - done,
        ..tile
    };
    let rows = mw_rank_counts::rank_by_counts(alloc, window, wanted.offsets, wanted.k, rest)?;
    push_from(out, rows.samples(), 0)?;
    Ok(())
}
