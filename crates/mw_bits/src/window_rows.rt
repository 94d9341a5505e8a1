//! A row of a set merged into a row of words, shifted; where the set has no place, nothing changes.
ghost use Rattle.std.specs.Prelude.{◌≡◌, ℕ, ◌+◌, ◌*◌, ◌<◌, ◌≤◌, negsuc, pos, ◌+ℤ◌, ◌≤ℤ◌, length};
ghost use Rattle.mw_model.specs.declared.limits.TheConstants.{FAR_LIMIT};
ghost use Rattle.mw_model.specs.Rasters.{raster, cell_at};
ghost use Rattle.mw_offset.specs.mw_lane.Shifted.{merge_at};
ghost use Rattle.mw_offset.specs.mw_pixel_words.Packed.{bit_of};

use crate::WordExtremum;
use crate::held::row_of;
use mw_bits_rows::combine_row;
use mw_offset::pixel::Bit;
use mw_offset::tile::Window;

/// Merges into each bit what the set has in that row, so many columns further on, both counted from its first place.
pub(crate) fn combine_window_row<E: WordExtremum>(
    set: &Window<Bit>,
    column: i64,
    row: i64,
    out: &mut [u64],
)
    requires low { negsuc FAR_LIMIT ≤ℤ column }
    requires high { column ≤ℤ pos FAR_LIMIT }
    requires few { length out.old ≤ FAR_LIMIT }
    ensures { (x : ℕ) → x < 64 * length out.old → bit_of out.new x ≡ merge_at E.merge (bit_of out.old x) (cell_at (raster set.now.place.width set.now.place.height set.now.cells) (column +ℤ pos x) row) }
{
    let place = set.place();
    if row >= 0 && row < i64::from(place.height) {
        combine_row::<E>(row_of(set, row as u32), place.width, column, out);
    }
}
