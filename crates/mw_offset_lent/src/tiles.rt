//! Extrema of a tile, where they can be made of few offsets.
ghost use Rattle.std.specs.Prelude.{◌≡◌, ◌+◌, ◌*◌, ◌≤◌, length, IfErr, IfOk, false, true};
ghost use Rattle.std.specs.List.{AllByRecursion};
ghost use Rattle.mw_model.specs.Rasters.{Raster, raster, cell_at};
ghost use Rattle.mw_model.specs.Windows.{seen_at};
ghost use Rattle.mw_line.specs.mw_tile.Windows.{IsWindow};
ghost use Rattle.mw_line.specs.Extrema.{IsSlidingExtremum};
ghost use Rattle.mw_offset_lent.specs.Layouts.{HasSeenRows, IsLaidOut};
ghost use Rattle.mw_offset_lent.specs.Offsets.{AreSuited, LeadsWithin};

use crate::places::{around_of, places_of};
use crate::shares::{shares_of, split_of};
use crate::shifts::best_shift;
use crate::strips::put_strips;
use crate::work::{Laid, Work, layout_of, lines_of, standing_of};
use mw_line_lent::{Laned, LanedExtremum, Room};
use mw_model::{NoMemory, Offset};
use mw_tile_lent::{Lent, Rect};

/// Writes all rows of results, for which it wants memory first.
fn put_tile<P: Laned, E: LanedExtremum<P>>(
    room: &mut Room<P>,
    lent: &Lent<P>,
    laid: Laid,
    offsets: &[Offset],
    neutral: P,
    out: &mut [P],
) -> Result<(), NoMemory>
    requires laid { IsLaidOut lent.now laid }
    requires within { AllByRecursion (LeadsWithin laid.around.across laid.around.down) offsets.now }
    requires lanes { 4 ≤ P.WIDTH }
    requires wide { 2 * P.WIDTH + 8 ≤ laid.tile.width }
    requires room { length out.old ≡ laid.tile.height * laid.tile.width }
    ensures size { length out.new ≡ length out.old }
    ensures made { IfOk result (λ _. HasSeenRows E.merge neutral (seen_at lent.now) offsets.now laid.tile laid.tile.height out.new) }
    ensures kept { IfErr result (λ _. out.new ≡ out.old) }
{
    let alloc = room.alloc;
    let around = laid.around;
    let place = lent.place();
    let stride = place.width as usize;
    let narrow = 4 * P::WIDTH;
    let lines = lines_of(place, laid.tile, around, P::WIDTH);
    let standing = standing_of(offsets, lines);
    let places = places_of(alloc, offsets, around, laid.wide)?;
    let there = places_of(alloc, standing, around, stride)?;
    let edges = places_of(alloc, standing, around, narrow)?;
    let all = places.as_slice();
    let inner = there.as_slice();
    let outer = edges.as_slice();
    let shift = best_shift(all, laid.wide, laid.wide / (2 * P::WIDTH));
    let by_cells = shares_of(alloc, all, shift, laid.wide)?;
    let by_rows = shares_of(alloc, inner, shift, stride)?;
    room.hold((laid.most + 2 * around.down) * laid.wide, neutral)?;
    let width = laid.tile.width as usize;
    let work = Work {
        laid,
        split: split_of(all, &by_cells, shift, laid.wide, width),
        inner: split_of(inner, &by_rows, shift, stride, width),
        edges: outer,
        narrow,
        lines,
    };
    put_strips::<P, E>(lent, work, neutral, room.cells.as_mut_slice(), out);
    Ok(())
}

/// Writes at each place of the tile the extremum of the neutral sample and what is lent under the offsets, where these are few and
/// near, and the tile has two vectors of columns and 8 more. Says whether it did: where not, it writes nothing. Where what is
/// lent has all that the frame has under the offsets, this is the extremum over the frame. It may want memory (`NoMemory`), but
/// only before it writes.
pub fn offsets_into<P: Laned, E: LanedExtremum<P>>(
    room: &mut Room<P>,
    lent: &Lent<P>,
    offsets: &[Offset],
    neutral: P,
    tile: Rect,
    out: &mut [P],
) -> Result<bool, NoMemory>
    requires { length out.old ≡ tile.height * tile.width }
    ensures over_window { IfOk result (λ done. done ≡ true → IsSlidingExtremum E.merge neutral (seen_at lent.now) offsets.now tile (raster tile.width tile.height out.new)) }
    ensures over_frame { IfOk result (λ done. done ≡ true → (f : Raster P) → IsWindow lent.now f offsets.now tile → IsSlidingExtremum E.merge neutral (cell_at f) offsets.now tile (raster tile.width tile.height out.new)) }
    ensures taken { AreSuited P.WIDTH offsets.now tile → IfOk result (λ done. done ≡ true) }
    ensures left_out { IfOk result (λ done. done ≡ false → out.new ≡ out.old) }
    ensures kept { IfErr result (λ _. out.new ≡ out.old) }
{
    let Some(around) = around_of(offsets) else {
        return Ok(false);
    };
    if P::WIDTH < 4 || (tile.width as usize) < 2 * P::WIDTH + 8 {
        return Ok(false);
    }
    let laid = layout_of(lent.place(), tile, around, P::WIDTH);
    put_tile::<P, E>(room, lent, laid, offsets, neutral, out)?;
    Ok(true)
}
