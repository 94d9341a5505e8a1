//! The medians of a tile, row after row, or column after column where it is too narrow for that. Where the window does not show the
//! whole square, as at an edge of the frame, medians are made with the greatest level for what is not seen. Where such a median is
//! that level, as in a corner, the rank is made alone.
ghost use Rattle.std.specs.Prelude.{◌≡◌, ℕ, ◌+◌, ◌-◌, ◌*◌, ◌<◌, ◌≤◌, ◌^◌, length, slice_index_or, vec_len, IfOk, IfSome, IsTrue, OnOk};
ghost use Rattle.mw_model.specs.PlanSteps.{ranked};
ghost use Rattle.mw_model.specs.Rasters.{Raster, cell_at};
ghost use Rattle.mw_model.specs.Windows.{seen_at};
ghost use Rattle.mw_rank.specs.mw_tile.Windows.{IsWindow};
ghost use Rattle.mw_rank.specs.Ranks.{levels_under, IsRank, HasRanks};
ghost use Rattle.mw_rank_medians.specs.Squares.{offset_rows, IsMedian};
ghost use Rattle.mw_rank_medians.specs.Wanted.{GainsWanted, IsFilled, HasFilledColumns};

use crate::Vectored;
use crate::cut::{gather, number_of};
use crate::filled::{Lines, filled_medians};
use crate::rows::{Sheet, push_medians};
use crate::square::{square_in, square_of};
use mw_model::{NoMemory, Offset, Rect};
use mw_rank::pixel::{Grey, Plane, copies};
use mw_rank::sample_of;
use mw_rank::tile::Window;
use std::alloc::Global;

/// The columns of a tile at which a square lies in columns of a window.
#[derive(Clone, Copy)]
struct Inner {
    first: u32,
    count: u32,
}

/// The medians that are wanted in a tile: number k under a square of offsets, by vectors in the inner columns; and where memory
/// for them comes from.
#[derive(Clone, Copy)]
struct Wanted<'a, P: Grey> {
    alloc: Global,
    window: &'a Window<P>,
    offsets: &'a [Offset],
    first: Offset,
    side: u32,
    k: u32,
    tile: Rect,
    inner: Inner,
}

/// The columns of the tile at which the square is in columns of the window; `square_in` looks whether it is.
fn inner_columns(first: Offset, side: u32, tile: Rect, place: Rect) -> Inner
    requires { side < 256 }
    ensures { result.first + result.count ≤ tile.width }
{
    let left = u64::from(first.dx.min(0).unsigned_abs());
    let right = u64::from(first.dx.max(0).unsigned_abs());
    let x = u64::from(tile.x);
    let width = u64::from(tile.width);
    let begin = (u64::from(place.x) + left).saturating_sub(right);
    let end = u64::from(place.x) + u64::from(place.width) + 1 + left;
    let from = begin.saturating_sub(x).min(width);
    let to = end.saturating_sub(x + right + u64::from(side)).min(width);
    Inner {
        first: from as u32,
        count: to.saturating_sub(from) as u32,
    }
}

/// The rank at a place.
fn rank_at<P: Grey>(seen: &mut Vec<u16>, wanted: Wanted<P>, x: u32, y: u32) -> Result<P, NoMemory>
    requires { length wanted.offsets.now < 2 ^ 16 }
    ensures { IfOk result (λ s. P.level s ≡ ranked wanted.entry.k (levels_under P.level (seen_at wanted.entry.window.now) wanted.entry.offsets.now x y)) }
{
    gather(
        seen,
        wanted.window,
        wanted.offsets,
        u64::from(x),
        u64::from(y),
    )?;
    let top = P::TOP.value();
    let level = number_of(seen, wanted.k, top);
    Ok(sample_of::<P>(level))
}

/// Some places of a row of the tile, from column x of the frame on; the row is counted from the tile's first.
#[derive(Clone, Copy)]
struct Part {
    x: u32,
    row: u32,
    count: u32,
}

/// Filled medians of which some follow one another in a row of the tile: those so many steps from the first.
#[derive(Clone, Copy)]
struct Filled<'a, P: Grey> {
    medians: &'a [P],
    from: usize,
    step: usize,
}

/// The filled medians of the tile's columns on both sides of the inner ones, column after column.
#[derive(Clone, Copy)]
struct Sides<'a, P: Grey> {
    left: &'a [P],
    right: &'a [P],
    /// How many of them a column has.
    length: u32,
}

/// The rank at a place, where the filled median is known.
fn checked<P: Grey>(
    seen: &mut Vec<u16>,
    wanted: Wanted<P>,
    filled: P,
    x: u32,
    y: u32,
) -> Result<P, NoMemory>
    requires few { length wanted.offsets.now < 2 ^ 16 }
    requires square { wanted.offsets.now ≡ offset_rows wanted.first wanted.side wanted.side }
    requires filled { IsFilled P.level P.top_level wanted x y filled }
    ensures { IfOk result (λ s. P.level s ≡ ranked wanted.entry.k (levels_under P.level (seen_at wanted.entry.window.now) wanted.entry.offsets.now x y)) }
{
    if filled.value() < P::TOP.value() {
        return Ok(filled);
    }
    rank_at(seen, wanted, x, y)
}

/// Adds the ranks of places of a row, where the filled medians are known.
fn push_cut<P: Grey>(
    out: &mut Vec<P>,
    seen: &mut Vec<u16>,
    wanted: Wanted<P>,
    filled: Filled<P>,
    part: Part,
) -> Result<(), NoMemory>
    requires few { length wanted.offsets.now < 2 ^ 16 }
    requires square { wanted.offsets.now ≡ offset_rows wanted.first wanted.side wanted.side }
    requires near { part.x + part.count < 2 ^ 32 }
    requires high { wanted.tile.y + part.row < 2 ^ 32 }
    requires inside { (i : ℕ) → i < part.count → filled.from + i * filled.step < length filled.medians.now }
    requires filled { (i : ℕ) → i < part.count → IsFilled P.level P.top_level wanted (part.x + i) (wanted.tile.y + part.row) (slice_index_or filled.medians.now (filled.from + i * filled.step) P.TOP) }
    ensures { OnOk result (GainsWanted P.level wanted.entry part.x part.row part.count out.old.items out.new.items) }
{
    let y = wanted.tile.y + part.row;
    for i in 0..part.count {
        let median = filled.medians[filled.from + i as usize * filled.step];
        let sample = checked(seen, wanted, median, part.x + i, y)?;
        out.push(sample)?;
    }
    Ok(())
}

/// Adds the ranks of places of a row, one by one.
fn push_alone<P: Grey>(
    out: &mut Vec<P>,
    seen: &mut Vec<u16>,
    wanted: Wanted<P>,
    part: Part,
) -> Result<(), NoMemory>
    requires few { length wanted.offsets.now < 2 ^ 16 }
    requires square { wanted.offsets.now ≡ offset_rows wanted.first wanted.side wanted.side }
    requires near { part.x + part.count < 2 ^ 32 }
    requires high { wanted.tile.y + part.row < 2 ^ 32 }
    ensures { OnOk result (GainsWanted P.level wanted.entry part.x part.row part.count out.old.items out.new.items) }
{
    let y = wanted.tile.y + part.row;
    for i in 0..part.count {
        let sample = rank_at(seen, wanted, part.x + i, y)?;
        out.push(sample)?;
    }
    Ok(())
}

/// Adds the ranks of places of a row beside the inner ones, from the filled medians of their columns, if these were made.
fn push_side<P: Grey>(
    out: &mut Vec<P>,
    seen: &mut Vec<u16>,
    wanted: Wanted<P>,
    medians: &[P],
    rows: u32,
    part: Part,
) -> Result<(), NoMemory>
    requires few { length wanted.offsets.now < 2 ^ 16 }
    requires square { wanted.offsets.now ≡ offset_rows wanted.first wanted.side wanted.side }
    requires near { part.x + part.count < 2 ^ 32 }
    requires high { wanted.tile.y + part.row < 2 ^ 32 }
    requires long { part.row < rows }
    requires made { 1 ≤ length medians.now → HasFilledColumns P.level P.top_level wanted part.x rows part.count medians.now }
    ensures { OnOk result (GainsWanted P.level wanted.entry part.x part.row part.count out.old.items out.new.items) }
{
    if medians.len() == 0 {
        return push_alone(out, seen, wanted, part);
    }
    let filled = Filled {
        medians,
        from: part.row as usize,
        step: rows as usize,
    };
    push_cut(out, seen, wanted, filled, part)
}

/// How many of a square's rows stand in so many rows from `from` on, where the square is put on row `at` and its first row stands
/// so far below that. Of columns it is the same.
fn lines_seen(first: i16, side: u32, at: u32, from: u32, count: u32) -> u64
    ensures { result ≤ side }
{
    let before = u64::from(first.min(0).unsigned_abs());
    let behind = u64::from(first.max(0).unsigned_abs());
    // lines are counted from as many before the frame as the square reaches
    let square = u64::from(at) + behind;
    let shown = u64::from(from) + before;
    let end = (square + u64::from(side)).min(shown + u64::from(count));
    end.saturating_sub(square.max(shown))
}

/// Adds the ranks of the inner columns of a row.
fn push_inner<P: Vectored>(
    out: &mut Vec<P>,
    piece: &mut [P],
    seen: &mut Vec<u16>,
    wanted: Wanted<P>,
    row: u32,
) -> Result<(), NoMemory>
    requires few { length wanted.offsets.now < 2 ^ 16 }
    requires wide { P.WIDTH ≤ length piece.old }
    requires part { length piece.old ≤ wanted.inner.count }
    requires near { wanted.tile.x + wanted.tile.width ≤ 2 ^ 31 }
    requires inner { wanted.inner.first + wanted.inner.count ≤ wanted.tile.width }
    requires high { wanted.tile.y + row ≤ 2 ^ 31 }
    requires square { wanted.offsets.now ≡ offset_rows wanted.first wanted.side wanted.side }
    requires median { IsMedian wanted.side wanted.k }
    ensures medians { OnOk result (GainsWanted P.level wanted.entry (wanted.entry.tile.x + wanted.entry.inner.first) row wanted.entry.inner.count out.old.items out.new.items) }
    ensures size { OnOk result (length piece.new ≡ length piece.old) }
{
    let x = wanted.tile.x + wanted.inner.first;
    let y = wanted.tile.y + row;
    let count = wanted.inner.count;
    if let Some(from) = square_in(
        wanted.window,
        wanted.first,
        wanted.side,
        u64::from(x),
        u64::from(y),
        count,
    ) {
        let sheet = Sheet {
            samples: wanted.window.samples(),
            from,
            stride: wanted.window.place().width as usize,
        };
        push_medians(out, piece, sheet, wanted.side, wanted.k, count as usize)?;
        return Ok(());
    }
    let place = wanted.window.place();
    let rows = lines_seen(wanted.first.dy, wanted.side, y, place.y, place.height);
    // of so few rows, each number k is the greatest level
    if 2 * rows < u64::from(wanted.side) {
        return push_alone(out, seen, wanted, Part { x, row, count });
    }
    let places = Lines {
        x,
        y,
        count: 1,
        length: count,
        down: false,
    };
    let medians = filled_medians(
        wanted.alloc,
        wanted.window,
        wanted.first,
        wanted.side,
        wanted.k,
        places,
    )?;
    let filled = Filled {
        medians: medians.as_slice(),
        from: 0,
        step: 1,
    };
    push_cut(out, seen, wanted, filled, Part { x, row, count })
}

/// Adds the ranks of a row.
fn push_row<P: Vectored>(
    out: &mut Vec<P>,
    piece: &mut [P],
    seen: &mut Vec<u16>,
    wanted: Wanted<P>,
    sides: Sides<P>,
    row: u32,
) -> Result<(), NoMemory>
    requires few { length wanted.offsets.now < 2 ^ 16 }
    requires wide { P.WIDTH ≤ length piece.old }
    requires part { length piece.old ≤ wanted.inner.count }
    requires near { wanted.tile.x + wanted.tile.width ≤ 2 ^ 31 }
    requires inner { wanted.inner.first + wanted.inner.count ≤ wanted.tile.width }
    requires high { wanted.tile.y + row ≤ 2 ^ 31 }
    requires square { wanted.offsets.now ≡ offset_rows wanted.first wanted.side wanted.side }
    requires median { IsMedian wanted.side wanted.k }
    requires long { row < sides.length }
    requires left { 1 ≤ length sides.left.now → HasFilledColumns P.level P.top_level wanted wanted.tile.x sides.length wanted.inner.first sides.left.now }
    requires right { 1 ≤ length sides.right.now → HasFilledColumns P.level P.top_level wanted (wanted.tile.x + (wanted.inner.first + wanted.inner.count)) sides.length (wanted.tile.width - (wanted.inner.first + wanted.inner.count)) sides.right.now }
    ensures medians { OnOk result (GainsWanted P.level wanted.entry wanted.entry.tile.x row wanted.entry.tile.width out.old.items out.new.items) }
    ensures size { OnOk result (length piece.new ≡ length piece.old) }
{
    let tile = wanted.tile;
    let first = wanted.inner.first;
    let last = first + wanted.inner.count;
    let rows = sides.length;
    let left = Part {
        x: tile.x,
        row,
        count: first,
    };
    let right = Part {
        x: tile.x + last,
        row,
        count: tile.width - last,
    };
    push_side(out, seen, wanted, sides.left, rows, left)?;
    push_inner(out, piece, seen, wanted, row)?;
    push_side(out, seen, wanted, sides.right, rows, right)?;
    Ok(())
}

/// The filled medians of so many of the tile's columns from column x on, column after column; each has so many rows.
fn column_medians<P: Vectored>(
    wanted: Wanted<P>,
    x: u32,
    count: u32,
    length: u32,
) -> Result<Vec<P>, NoMemory>
    requires wide { P.WIDTH ≤ length }
    requires long { length ≤ 2 ^ 31 }
    requires many { count ≤ 2 ^ 31 }
    requires median { IsMedian wanted.side wanted.k }
    ensures { IfOk result (λ v. HasFilledColumns P.level P.top_level wanted.entry x length count v.items) }
{
    let columns = Lines {
        x,
        y: wanted.tile.y,
        count,
        length,
        down: true,
    };
    filled_medians(
        wanted.alloc,
        wanted.window,
        wanted.first,
        wanted.side,
        wanted.k,
        columns,
    )
}

/// The medians of columns beside the inner ones. None are made of more columns than a square has that holds its origin.
fn side_medians<P: Vectored>(
    wanted: Wanted<P>,
    x: u32,
    count: u32,
    length: u32,
) -> Result<Vec<P>, NoMemory>
    requires wide { P.WIDTH ≤ length }
    requires long { length ≤ 2 ^ 31 }
    requires many { count ≤ 2 ^ 31 }
    requires median { IsMedian wanted.side wanted.k }
    ensures { IfOk result (λ v. 1 ≤ vec_len v → HasFilledColumns P.level P.top_level wanted.entry x length count v.items) }
{
    if count >= wanted.side {
        return Ok(Vec::new(wanted.alloc));
    }
    column_medians(wanted, x, count, length)
}

/// How many medians of a row are made before they are copied: so few that the processor copies them while it makes the next ones,
/// and so many that few are made twice.
const PIECE: u32 = 512;

/// The ranks of a tile, by rows.
fn median_samples<P: Vectored>(wanted: Wanted<P>) -> Result<Vec<P>, NoMemory>
    requires few { length wanted.offsets.now < 2 ^ 16 }
    requires near { wanted.tile.x + wanted.tile.width ≤ 2 ^ 31 }
    requires high { wanted.tile.y + wanted.tile.height ≤ 2 ^ 31 }
    requires wide { P.WIDTH ≤ wanted.inner.count }
    requires inner { wanted.inner.first + wanted.inner.count ≤ wanted.tile.width }
    requires square { wanted.offsets.now ≡ offset_rows wanted.first wanted.side wanted.side }
    requires median { IsMedian wanted.side wanted.k }
    ensures { IfOk result (λ v. HasRanks P.level wanted.entry.k (seen_at wanted.entry.window.now) wanted.entry.offsets.now wanted.entry.tile v.items) }
{
    let alloc = wanted.alloc;
    let tile = wanted.tile;
    let first = wanted.inner.first;
    let last = first + wanted.inner.count;
    let length = tile.height.max(P::WIDTH as u32);
    let before = side_medians(wanted, tile.x, first, length)?;
    let behind = side_medians(wanted, tile.x + last, tile.width - last, length)?;
    let sides = Sides {
        left: before.as_slice(),
        right: behind.as_slice(),
        length,
    };
    let mut seen = Vec::with_capacity(alloc, wanted.offsets.len())?;
    let mut room = copies(alloc, wanted.inner.count.min(PIECE) as usize, P::TOP)?;
    let mut out = Vec::with_capacity(alloc, tile.height as usize * tile.width as usize)?;
    let piece = room.as_mut_slice();
    for row in 0..tile.height {
        push_row(&mut out, piece, &mut seen, wanted, sides, row)?;
    }
    Ok(out)
}

/// The ranks of a tile that has no row of whole squares for a vector: its columns are made as lines.
fn narrow_samples<P: Vectored>(wanted: Wanted<P>) -> Result<Vec<P>, NoMemory>
    requires few { length wanted.offsets.now < 2 ^ 16 }
    requires near { wanted.tile.x + wanted.tile.width ≤ 2 ^ 31 }
    requires high { wanted.tile.y + wanted.tile.height ≤ 2 ^ 31 }
    requires square { wanted.offsets.now ≡ offset_rows wanted.first wanted.side wanted.side }
    requires median { IsMedian wanted.side wanted.k }
    ensures { IfOk result (λ v. HasRanks P.level wanted.entry.k (seen_at wanted.entry.window.now) wanted.entry.offsets.now wanted.entry.tile v.items) }
{
    let alloc = wanted.alloc;
    let tile = wanted.tile;
    let length = tile.height.max(P::WIDTH as u32);
    let medians = column_medians(wanted, tile.x, tile.width, length)?;
    let mut seen = Vec::with_capacity(alloc, wanted.offsets.len())?;
    let mut out = Vec::with_capacity(alloc, tile.height as usize * tile.width as usize)?;
    for row in 0..tile.height {
        let part = Part {
            x: tile.x,
            row,
            count: tile.width,
        };
        push_side(
            &mut out,
            &mut seen,
            wanted,
            medians.as_slice(),
            length,
            part,
        )?;
    }
    Ok(out)
}

/// How many rows and columns of the square the window shows at each place of the tile, at least.
fn least_seen<P: Grey>(wanted: Wanted<P>) -> u64
    requires near { wanted.tile.x + wanted.tile.width ≤ 2 ^ 31 }
    requires high { wanted.tile.y + wanted.tile.height ≤ 2 ^ 31 }
    ensures { result ≤ wanted.entry.side }
{
    let Rect {
        x,
        y,
        width,
        height,
    } = wanted.tile;
    let Offset { dx, dy } = wanted.first;
    let place = wanted.window.place();
    let right = (x + width).saturating_sub(1);
    let below = (y + height).saturating_sub(1);
    // in between there are no fewer
    lines_seen(dx, wanted.side, x, place.x, place.width)
        .min(lines_seen(dx, wanted.side, right, place.x, place.width))
        .min(lines_seen(dy, wanted.side, y, place.y, place.height))
        .min(lines_seen(dy, wanted.side, below, place.y, place.height))
}

/// Places up to here, and those about them, have numbers of 32 bits.
const FARTHEST: u64 = 1 << 31;

/// Whether the tile's columns and rows, and those about them, have numbers of 32 bits.
fn is_near(tile: Rect) -> bool
    ensures { IsTrue result → (tile.x + tile.width ≤ 2 ^ 31) × (tile.y + tile.height ≤ 2 ^ 31) }
{
    u64::from(tile.x) + u64::from(tile.width) <= FARTHEST
        && u64::from(tile.y) + u64::from(tile.height) <= FARTHEST
}

/// The side of the square of which number k of so many samples is the median, where a network is known for it.
fn side_of(k: u32) -> Option<u32>
    ensures { IfSome result (λ side. IsMedian side k) }
{
    match k {
        5 => Some(3),
        13 => Some(5),
        _ => None,
    }
}

/// The medians of a tile, where vectors make them: along its rows, or along its columns where it is narrow and shows half of the
/// square everywhere.
fn by_vectors<P: Vectored>(
    alloc: Global,
    window: &Window<P>,
    offsets: &[Offset],
    k: u32,
    tile: Rect,
) -> Result<Option<Vec<P>>, NoMemory>
    requires { length offsets.now < 2 ^ 16 }
    ensures { IfOk result (λ o. IfSome o (λ v. HasRanks P.level k (seen_at window.now) offsets.now tile v.items)) }
{
    if !is_near(tile) {
        return Ok(None);
    }
    let Some(side) = side_of(k) else {
        return Ok(None);
    };
    let Some(first) = square_of(offsets, side as usize) else {
        return Ok(None);
    };
    let inner = inner_columns(first, side, tile, window.place());
    let wanted = Wanted {
        alloc,
        window,
        offsets,
        first,
        side,
        k,
        tile,
        inner,
    };
    if inner.count as usize >= P::WIDTH {
        return Ok(Some(median_samples(wanted)?));
    }
    if 2 * least_seen(wanted) >= u64::from(side) {
        return Ok(Some(narrow_samples(wanted)?));
    }
    Ok(None)
}

/// The ranks of a tile, where they are medians under a square of 3 x 3 or 5 x 5 offsets, and the tile has columns for a vector or
/// the window shows half of the square's rows and columns at each of its places; else None. It may want memory (`NoMemory`).
pub fn median_of_grey<P: Vectored>(
    alloc: Global,
    window: &Window<P>,
    offsets: &[Offset],
    k: u32,
    tile: Rect,
) -> Result<Option<Plane<P>>, NoMemory>
    requires { length offsets.now < 2 ^ 16 }
    ensures over_window { IfOk result (λ o. IfSome o (λ r. IsRank P.level k (seen_at window.now) offsets.now tile r)) }
    ensures over_frame { IfOk result (λ o. IfSome o (λ r. (f : Raster P) → IsWindow window.now f offsets.now tile → IsRank P.level k (cell_at f) offsets.now tile r)) }
{
    match by_vectors(alloc, window, offsets, k, tile)? {
        Some(samples) => Ok(Some(Plane::new(tile.width, tile.height, samples))),
        None => Ok(None),
    }
}
