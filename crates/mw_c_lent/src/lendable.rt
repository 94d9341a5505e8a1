//! Samples of a caller's array that kernels read and write where they stand.

ghost use Rattle.std.specs.Prelude.{◌≡◌, ℕ, ◌+◌, ◌-◌, ◌*◌, ◌≤◌, length, map, IfErr, IfNone, IfOk, IfSome, false, true};
ghost use lib.Lanes.{zip2};
ghost use Rattle.mw_model.specs.Flat.{greatest, least};
ghost use Rattle.mw_model.specs.Rasters.{raster};
ghost use Rattle.mw_model.specs.Rectangles.{box_offsets};
ghost use Rattle.mw_model.specs.Windows.{seen_at};
ghost use Rattle.mw_c_arrays.specs.Sources.{picture_in};
ghost use Rattle.mw_line.specs.Extrema.{IsSlidingExtremum};
ghost use Rattle.mw_line_lent.specs.Near.{IsAround, StandsInside};
ghost use Rattle.mw_c_lent.specs.Boxes.{IsMadeUnder};
ghost use Rattle.mw_c_lent.specs.Levels.{HasLevelsUpTo};
ghost use Rattle.mw_c_lent.specs.Narrow.{IsSmall};
ghost use Rattle.mw_c_lent.specs.Slides.{range_value};
ghost use Rattle.mw_c_lent.specs.Suited.{SuitTile};

use crate::subtracting::subtract_from;
use mw_c_arrays::ArrayImage;
use mw_chord_lent::chords_into;
use mw_line::lane::subtract_rows;
use mw_line_lent::{
    Ends, Laned, LanedExtremum, Lent, Max, Min, Room, boxes_into, boxes_with_room, differences_into,
};
use mw_model::{NoMemory, Offset, OffsetBox, Rect};
use mw_offset_lent::{is_quick, offsets_into};
use mw_rank_lent::Broad;
use std::alloc::Global;

/// A sample in levels of grey that a kernel of lent rows writes.
pub trait Lendable: Broad {
    /// The samples of an array in levels of grey, where they are of this type.
    fn grey<'a>(f: ArrayImage<'a>) -> Option<&'a [Self]>
        ensures samples { IfSome result (λ samples. map Self.level samples.now ≡ (picture_in f.entry).samples) }
        ensures none { IfNone result (HasLevelsUpTo Self.top_level f.entry → ⊥) };

    /// Writes the least of the neutral sample and those that are lent under a box, at each place of a tile, if it can. Says whether it
    /// did: where not, it writes nothing. It may want memory (`NoMemory`), but only before it writes.
    fn least_into(
        alloc: Global,
        lent: &Lent<Self>,
        offsets: OffsetBox,
        neutral: Self,
        tile: Rect,
        out: &mut [Self],
    ) -> Result<bool, NoMemory>
        requires { length out.old ≡ tile.height * tile.width }
        ensures made { IfOk result (λ done. done ≡ true → IsMadeUnder (least (Self.level neutral)) Self.level (seen_at lent.now) (box_offsets offsets) tile out.new) }
        ensures taken { IsAround offsets → StandsInside lent.now.place tile → IfOk result (λ done. done ≡ true) }
        ensures left_out { IfOk result (λ done. done ≡ false → out.new ≡ out.old) }
        ensures kept { IfErr result (λ _. out.new ≡ out.old) };

    /// The same of the greatest, which is 0 where none is seen.
    fn greatest_into(
        alloc: Global,
        lent: &Lent<Self>,
        offsets: OffsetBox,
        tile: Rect,
        out: &mut [Self],
    ) -> Result<bool, NoMemory>
        requires { length out.old ≡ tile.height * tile.width }
        ensures made { IfOk result (λ done. done ≡ true → IsMadeUnder greatest Self.level (seen_at lent.now) (box_offsets offsets) tile out.new) }
        ensures taken { IsAround offsets → StandsInside lent.now.place tile → IfOk result (λ done. done ≡ true) }
        ensures left_out { IfOk result (λ done. done ≡ false → out.new ≡ out.old) }
        ensures kept { IfErr result (λ _. out.new ≡ out.old) };

    /// Writes the least of the neutral sample and those that are lent under a box that has the place it is put on, in a tile that
    /// stands in what is lent. There is room for six lines.
    fn least_with_room(
        lent: &Lent<Self>,
        offsets: OffsetBox,
        neutral: Self,
        tile: Rect,
        room: &mut [Self],
        out: &mut [Self],
    )
        requires around { IsAround offsets }
        requires stands { StandsInside lent.now.place tile }
        requires lines { 6 * (tile.width + 255) ≤ length room.old }
        requires room { length out.old ≡ tile.height * tile.width }
        ensures lines { length room.new ≡ length room.old }
        ensures size { length out.new ≡ length out.old }
        ensures made { IsMadeUnder (least (Self.level neutral)) Self.level (seen_at lent.now) (box_offsets offsets) tile out.new };

    /// The same of the greatest, which is 0 where none is seen.
    fn greatest_with_room(
        lent: &Lent<Self>,
        offsets: OffsetBox,
        tile: Rect,
        room: &mut [Self],
        out: &mut [Self],
    )
        requires around { IsAround offsets }
        requires stands { StandsInside lent.now.place tile }
        requires lines { 6 * (tile.width + 255) ≤ length room.old }
        requires room { length out.old ≡ tile.height * tile.width }
        ensures lines { length room.new ≡ length room.old }
        ensures size { length out.new ≡ length out.old }
        ensures made { IsMadeUnder greatest Self.level (seen_at lent.now) (box_offsets offsets) tile out.new };

    /// Writes the least of the neutral sample and those that are lent under offsets, at each place of a tile, if it can. Says
    /// whether it did: where not, it writes nothing. It may want memory (`NoMemory`), but only before it writes.
    fn least_under(
        room: &mut Room<Self>,
        lent: &Lent<Self>,
        offsets: &[Offset],
        neutral: Self,
        tile: Rect,
        out: &mut [Self],
    ) -> Result<bool, NoMemory>
        requires { length out.old ≡ tile.height * tile.width }
        ensures made { IfOk result (λ done. done ≡ true → IsMadeUnder (least (Self.level neutral)) Self.level (seen_at lent.now) offsets.now tile out.new) }
        ensures taken { SuitTile offsets.now tile → IfOk result (λ done. done ≡ true) }
        ensures left_out { IfOk result (λ done. done ≡ false → out.new ≡ out.old) }
        ensures kept { IfErr result (λ _. out.new ≡ out.old) };

    /// The same of the greatest, which is 0 where none is seen.
    fn greatest_under(
        room: &mut Room<Self>,
        lent: &Lent<Self>,
        offsets: &[Offset],
        tile: Rect,
        out: &mut [Self],
    ) -> Result<bool, NoMemory>
        requires { length out.old ≡ tile.height * tile.width }
        ensures made { IfOk result (λ done. done ≡ true → IsMadeUnder greatest Self.level (seen_at lent.now) offsets.now tile out.new) }
        ensures taken { SuitTile offsets.now tile → IfOk result (λ done. done ≡ true) }
        ensures left_out { IfOk result (λ done. done ≡ false → out.new ≡ out.old) }
        ensures kept { IfErr result (λ _. out.new ≡ out.old) };

    /// Each sample less the other's at its place, stopping at 0, in place.
    fn subtract_row(row: &mut [Self], other: &[Self])
        requires { length row.old ≡ length other.now }
        ensures { map Self.level row.new ≡ zip2 (λ (m n : ℕ). m - n) (map Self.level row.old) (map Self.level other.now) };

    /// The other's sample less each at its place.
    fn subtract_from_row(row: &mut [Self], other: &[Self])
        requires { length row.old ≡ length other.now }
        ensures { map Self.level row.new ≡ zip2 (λ (m n : ℕ). m - n) (map Self.level other.now) (map Self.level row.old) };

    /// Writes the greatest of those that are lent under a box, less the least of them and the top sample, at each place of a tile, if
    /// it can. Says whether it did: where not, it writes nothing. It may want memory (`NoMemory`), but only before it writes.
    fn gradient_into(
        alloc: Global,
        lent: &Lent<Self>,
        offsets: OffsetBox,
        top: Self,
        tile: Rect,
        out: &mut [Self],
    ) -> Result<bool, NoMemory>
        requires { length out.old ≡ tile.height * tile.width }
        ensures made { IfOk result (λ done. done ≡ true → IsMadeUnder (range_value (Self.level top)) Self.level (seen_at lent.now) (box_offsets offsets) tile out.new) }
        ensures taken { IsSmall offsets → StandsInside lent.now.place tile → IfOk result (λ done. done ≡ true) }
        ensures left_out { IfOk result (λ done. done ≡ false → out.new ≡ out.old) }
        ensures kept { IfErr result (λ _. out.new ≡ out.old) };
}

/// How many rows and samples a tile has at least for offsets: in a smaller one it takes longer to find what two rows share than to
/// merge its samples.
const ROWS: u32 = 8;

const SAMPLES: u32 = 8192;

/// Whether a tile is so small that offsets are sooner merged in a window of it.
fn is_small(tile: Rect) -> bool
    ensures { 8 ≤ tile.height → 8192 ≤ tile.width * tile.height → result ≡ false }
{
    tile.height < ROWS || tile.width.saturating_mul(tile.height) < SAMPLES
}

/// Writes the extremum of the neutral sample and those that are lent under offsets, at each place of a tile, if it can: offset by
/// offset where these are few and lie in short runs, else by the chords of the runs, and where that is refused by offsets after all.
fn extremum_under<P: Laned, E: LanedExtremum<P>>(
    room: &mut Room<P>,
    lent: &Lent<P>,
    offsets: &[Offset],
    neutral: P,
    tile: Rect,
    out: &mut [P],
) -> Result<bool, NoMemory>
    requires { length out.old ≡ tile.height * tile.width }
    ensures over_window { IfOk result (λ done. done ≡ true → IsSlidingExtremum E.merge neutral (seen_at lent.now) offsets.now tile (raster tile.width tile.height out.new)) }
    ensures taken { 4 ≤ P.WIDTH → P.WIDTH ≤ 32 → SuitTile offsets.now tile → IfOk result (λ done. done ≡ true) }
    ensures left_out { IfOk result (λ done. done ≡ false → out.new ≡ out.old) }
    ensures kept { IfErr result (λ _. out.new ≡ out.old) }
{
    if is_small(tile) {
        return Ok(false);
    }
    if is_quick(offsets) {
        if offsets_into::<P, E>(room, lent, offsets, neutral, tile, out)? {
            return Ok(true);
        }
    }
    if chords_into::<P, E>(room, lent, offsets, neutral, tile, out)? {
        return Ok(true);
    }
    offsets_into::<P, E>(room, lent, offsets, neutral, tile, out)
}

impl Lendable for u8 {
    fn grey<'a>(f: ArrayImage<'a>) -> Option<&'a [u8]> {
        match f {
            ArrayImage::Grey8(f) => Some(f.samples),
            ArrayImage::Grey16(_) => None,
            ArrayImage::Pixels(_) => None,
        }
    }

    fn least_into(
        alloc: Global,
        lent: &Lent<u8>,
        offsets: OffsetBox,
        neutral: u8,
        tile: Rect,
        out: &mut [u8],
    ) -> Result<bool, NoMemory> {
        boxes_into::<u8, Min>(alloc, lent, offsets, neutral, tile, out)
    }

    fn greatest_into(
        alloc: Global,
        lent: &Lent<u8>,
        offsets: OffsetBox,
        tile: Rect,
        out: &mut [u8],
    ) -> Result<bool, NoMemory> {
        boxes_into::<u8, Max>(alloc, lent, offsets, 0, tile, out)
    }

    fn least_with_room(
        lent: &Lent<u8>,
        offsets: OffsetBox,
        neutral: u8,
        tile: Rect,
        room: &mut [u8],
        out: &mut [u8],
    ) {
        boxes_with_room::<u8, Min>(lent, offsets, neutral, tile, room, out);
    }

    fn greatest_with_room(
        lent: &Lent<u8>,
        offsets: OffsetBox,
        tile: Rect,
        room: &mut [u8],
        out: &mut [u8],
    ) {
        boxes_with_room::<u8, Max>(lent, offsets, 0, tile, room, out);
    }

    fn least_under(
        room: &mut Room<u8>,
        lent: &Lent<u8>,
        offsets: &[Offset],
        neutral: u8,
        tile: Rect,
        out: &mut [u8],
    ) -> Result<bool, NoMemory> {
        extremum_under::<u8, Min>(room, lent, offsets, neutral, tile, out)
    }

    fn greatest_under(
        room: &mut Room<u8>,
        lent: &Lent<u8>,
        offsets: &[Offset],
        tile: Rect,
        out: &mut [u8],
    ) -> Result<bool, NoMemory> {
        extremum_under::<u8, Max>(room, lent, offsets, 0, tile, out)
    }

    fn subtract_row(row: &mut [u8], other: &[u8]) {
        subtract_rows(row, other);
    }

    fn subtract_from_row(row: &mut [u8], other: &[u8]) {
        subtract_from(row, other);
    }

    fn gradient_into(
        alloc: Global,
        lent: &Lent<u8>,
        offsets: OffsetBox,
        top: u8,
        tile: Rect,
        out: &mut [u8],
    ) -> Result<bool, NoMemory> {
        let ends = Ends { bottom: 0, top };
        differences_into::<u8, Max, Min>(alloc, lent, offsets, ends, tile, out)
    }
}

impl Lendable for u16 {
    fn grey<'a>(f: ArrayImage<'a>) -> Option<&'a [u16]> {
        match f {
            ArrayImage::Grey16(f) => Some(f.samples),
            ArrayImage::Grey8(_) => None,
            ArrayImage::Pixels(_) => None,
        }
    }

    fn least_into(
        alloc: Global,
        lent: &Lent<u16>,
        offsets: OffsetBox,
        neutral: u16,
        tile: Rect,
        out: &mut [u16],
    ) -> Result<bool, NoMemory> {
        boxes_into::<u16, Min>(alloc, lent, offsets, neutral, tile, out)
    }

    fn greatest_into(
        alloc: Global,
        lent: &Lent<u16>,
        offsets: OffsetBox,
        tile: Rect,
        out: &mut [u16],
    ) -> Result<bool, NoMemory> {
        boxes_into::<u16, Max>(alloc, lent, offsets, 0, tile, out)
    }

    fn least_with_room(
        lent: &Lent<u16>,
        offsets: OffsetBox,
        neutral: u16,
        tile: Rect,
        room: &mut [u16],
        out: &mut [u16],
    ) {
        boxes_with_room::<u16, Min>(lent, offsets, neutral, tile, room, out);
    }

    fn greatest_with_room(
        lent: &Lent<u16>,
        offsets: OffsetBox,
        tile: Rect,
        room: &mut [u16],
        out: &mut [u16],
    ) {
        boxes_with_room::<u16, Max>(lent, offsets, 0, tile, room, out);
    }

    fn least_under(
        room: &mut Room<u16>,
        lent: &Lent<u16>,
        offsets: &[Offset],
        neutral: u16,
        tile: Rect,
        out: &mut [u16],
    ) -> Result<bool, NoMemory> {
        extremum_under::<u16, Min>(room, lent, offsets, neutral, tile, out)
    }

    fn greatest_under(
        room: &mut Room<u16>,
        lent: &Lent<u16>,
        offsets: &[Offset],
        tile: Rect,
        out: &mut [u16],
    ) -> Result<bool, NoMemory> {
        extremum_under::<u16, Max>(room, lent, offsets, 0, tile, out)
    }

    fn subtract_row(row: &mut [u16], other: &[u16]) {
        subtract_rows(row, other);
    }

    fn subtract_from_row(row: &mut [u16], other: &[u16]) {
        subtract_from(row, other);
    }

    fn gradient_into(
        alloc: Global,
        lent: &Lent<u16>,
        offsets: OffsetBox,
        top: u16,
        tile: Rect,
        out: &mut [u16],
    ) -> Result<bool, NoMemory> {
        let ends = Ends { bottom: 0, top };
        differences_into::<u16, Max, Min>(alloc, lent, offsets, ends, tile, out)
    }
}
