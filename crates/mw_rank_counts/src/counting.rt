//! The rank filter by counting, for elements of few offsets: at the columns at which all offsets are in columns of the
//! window, the level is looked for in 32 columns at once; left and right of them, by the moving histogram.
ghost use Rattle.std.specs.Prelude.{◌≡◌, ℕ, ◌+◌, ◌-◌, ◌*◌, ◌<◌, ◌≤◌, ◌^◌, length, slice_index_or, IfOk, IfSome, OnOk, IsTrue};
ghost use Rattle.mw_model.specs.Rasters.{Raster, cell_at};
ghost use Rattle.mw_model.specs.Windows.{seen_at};
ghost use Rattle.mw_rank.specs.mw_tile.Windows.{IsWindow};
ghost use Rattle.mw_rank.specs.Ranks.{IsRank, GainsRow, HasRanks};
ghost use Rattle.mw_rank_counts.specs.Counting.{AllUnder};
ghost use Rattle.mw_rank_counts.specs.Sought.{GainsSought, HasSought};
ghost use Rattle.mw_rank_counts.specs.Squeezed.{BytesHaveRoom};

use crate::Counted;
use crate::costs::{Way, are_close, load_of, quickest};
use crate::inner_columns::{Inner, inner_places, row_places};
use crate::search::{Search, push_blocks};
use crate::squeezed::{Bytes, room_for};
use mw_model::{NoMemory, Offset, Rect};
use mw_rank::pixel::{Grey, Pixel, Plane, copies};
use mw_rank::tile::Window;
use mw_rank::{rank, sample_of};
use std::alloc::Global;

/// The ranks that are wanted in a tile, and how they are looked for at its inner places.
#[derive(Clone, Copy)]
struct Wanted<'a> {
    offsets: &'a [Offset],
    tile: Rect,
    inner: Inner,
    search: Search,
}

/// The ranks of the columns left and right of the inner places.
#[derive(Clone, Copy)]
struct Edges<'a, P: Grey> {
    left: &'a [P],
    right: &'a [P],
}

/// What is used again for each row: room for places, the levels of a block, and its samples as bytes.
#[derive(Drop)]
struct Scratch<P: Grey> {
    places: Vec<usize>,
    found: Vec<P>,
    bytes: Bytes,
}

/// The ranks of a tile by the moving histogram; of a tile without columns nothing is asked.
fn edge_ranks<P: Grey>(
    alloc: Global,
    window: &Window<P>,
    offsets: &[Offset],
    k: u32,
    tile: Rect,
) -> Result<Vec<P>, NoMemory>
    requires { length offsets.now < 2 ^ 16 }
    ensures { IfOk result (λ v. HasRanks P.level k (seen_at window.now) offsets.now tile v.items) }
{
    if tile.width == 0 {
        return Ok(Vec::new(alloc));
    }
    let ranks = rank(alloc, window, offsets, k, tile)?;
    Ok(ranks.into_samples())
}

/// Adds a row of samples that stand row after row.
fn push_row_of<P: Pixel>(
    out: &mut Vec<P>,
    samples: &[P],
    row: u32,
    width: u32,
) -> Result<(), NoMemory>
    requires { row * width + width ≤ length samples.now }
    ensures { OnOk result (GainsRow P.level (λ i. P.level (slice_index_or samples.now (row * width + i) P.TOP)) width out.old.items out.new.items) }
{
    let from = row as usize * width as usize;
    out.extend_from_slice(&samples[from..from + width as usize])?;
    Ok(())
}

/// Adds so many samples of the lowest level.
fn push_lowest<P: Pixel>(out: &mut Vec<P>, count: u32) -> Result<(), NoMemory>
    ensures { OnOk result (GainsRow P.level (λ i. 0) count out.old.items out.new.items) }
{
    let lowest = sample_of::<P>(0);
    for _i in 0..count {
        out.push(lowest)?;
    }
    Ok(())
}

/// Adds the ranks of the inner places of a row; says whether the window has the columns of all offsets there.
fn push_inner<P: Counted>(
    out: &mut Vec<P>,
    scratch: &mut Scratch<P>,
    window: &Window<P>,
    wanted: Wanted,
    row: u32,
) -> Result<bool, NoMemory>
    requires wide { 32 ≤ wanted.inner.count }
    requires few { length wanted.offsets.now < 256 }
    requires within { wanted.search.bits ≤ P.BITS }
    requires small { AllUnder P.level P.TOP window.now.cells (2 ^ wanted.search.bits) }
    requires whole { length scratch.old.found.items ≡ 32 }
    requires room { BytesHaveRoom scratch.old.bytes }
    ensures row { IfOk result (λ known. IsTrue known → GainsSought P.level (seen_at window.now) wanted.entry (wanted.entry.tile.x + wanted.entry.inner.first) row wanted.entry.inner.count out.old.items out.new.items) }
    ensures whole { OnOk result (length scratch.new.found.items ≡ 32) }
    ensures room { OnOk result (BytesHaveRoom scratch.new.bytes) }
{
    let count = wanted.inner.count;
    let x = u64::from(wanted.tile.x) + u64::from(wanted.inner.first);
    let y = u64::from(wanted.tile.y) + u64::from(row);
    if !row_places(&mut scratch.places, window, wanted.offsets, x, y, count)? {
        return Ok(false);
    }
    if scratch.places.is_empty() {
        push_lowest(out, count)?;
        return Ok(true);
    }
    push_blocks(
        out,
        scratch.found.as_mut_slice(),
        &mut scratch.bytes,
        window.samples(),
        &scratch.places,
        wanted.search,
        count,
    )?;
    Ok(true)
}

/// Adds the ranks of a row; says whether the window has the columns of all offsets at the inner places.
fn push_row<P: Counted>(
    out: &mut Vec<P>,
    scratch: &mut Scratch<P>,
    window: &Window<P>,
    wanted: Wanted,
    edges: Edges<P>,
    row: u32,
) -> Result<bool, NoMemory>
    requires down { row < wanted.tile.height }
    requires wide { 32 ≤ wanted.inner.count }
    requires inner { wanted.inner.first + wanted.inner.count ≤ wanted.tile.width }
    requires few { length wanted.offsets.now < 256 }
    requires within { wanted.search.bits ≤ P.BITS }
    requires small { AllUnder P.level P.TOP window.now.cells (2 ^ wanted.search.bits) }
    requires left { HasSought P.level (seen_at window.now) wanted wanted.tile.x wanted.inner.first edges.left.now }
    requires right { HasSought P.level (seen_at window.now) wanted (wanted.tile.x + (wanted.inner.first + wanted.inner.count)) (wanted.tile.width - (wanted.inner.first + wanted.inner.count)) edges.right.now }
    requires whole { length scratch.old.found.items ≡ 32 }
    requires room { BytesHaveRoom scratch.old.bytes }
    ensures row { IfOk result (λ known. IsTrue known → GainsSought P.level (seen_at window.now) wanted.entry wanted.entry.tile.x row wanted.entry.tile.width out.old.items out.new.items) }
    ensures whole { OnOk result (length scratch.new.found.items ≡ 32) }
    ensures room { OnOk result (BytesHaveRoom scratch.new.bytes) }
{
    let first = wanted.inner.first;
    let rest = wanted.tile.width - (first + wanted.inner.count);
    push_row_of(out, edges.left, row, first)?;
    let known = push_inner(out, scratch, window, wanted, row)?;
    push_row_of(out, edges.right, row, rest)?;
    Ok(known)
}

/// The ranks of a tile, by rows, where the window has the columns of all offsets at its inner places.
fn count_samples<P: Counted>(
    alloc: Global,
    window: &Window<P>,
    wanted: Wanted,
) -> Result<Option<Vec<P>>, NoMemory>
    requires few { length wanted.offsets.now < 256 }
    requires near { wanted.tile.x + wanted.tile.width < 2 ^ 32 }
    requires wide { 32 ≤ wanted.inner.count }
    requires inner { wanted.inner.first + wanted.inner.count ≤ wanted.tile.width }
    requires within { wanted.search.bits ≤ P.BITS }
    requires small { AllUnder P.level P.TOP window.now.cells (2 ^ wanted.search.bits) }
    ensures { IfOk result (λ o. IfSome o (λ v. HasSought P.level (seen_at window.now) wanted.entry wanted.entry.tile.x wanted.entry.tile.width v.items)) }
{
    let tile = wanted.tile;
    let offsets = wanted.offsets;
    let k = wanted.search.k;
    let first = wanted.inner.first;
    let last = first + wanted.inner.count;
    let front = Rect {
        width: first,
        ..tile
    };
    let back = Rect {
        x: tile.x + last,
        width: tile.width - last,
        ..tile
    };
    let left = edge_ranks(alloc, window, offsets, k, front)?;
    let right = edge_ranks(alloc, window, offsets, k, back)?;
    let edges = Edges {
        left: &left,
        right: &right,
    };
    // no room where none is used
    let bytes = if P::BITS > 8 { offsets.len() } else { 0 };
    let mut scratch = Scratch {
        places: Vec::with_capacity(alloc, offsets.len())?,
        found: copies(alloc, 32, P::TOP)?,
        bytes: room_for(alloc, bytes)?,
    };
    let mut out = Vec::with_capacity(alloc, tile.height as usize * tile.width as usize)?;
    for row in 0..tile.height {
        if !push_row(&mut out, &mut scratch, window, wanted, edges, row)? {
            return Ok(None);
        }
    }
    Ok(Some(out))
}

/// The ranks of a tile by counting, where that is quicker.
fn counted_samples<P: Counted>(
    alloc: Global,
    window: &Window<P>,
    offsets: &[Offset],
    k: u32,
    tile: Rect,
) -> Result<Option<Vec<P>>, NoMemory>
    ensures { IfOk result (λ o. IfSome o (λ v. HasRanks P.level k (seen_at window.now) offsets.now tile v.items)) }
{
    if offsets.len() >= 256 || tile.x.checked_add(tile.width).is_none() {
        return Ok(None);
    }
    let inner = inner_places(offsets, tile, window.place());
    if inner.count < 32 {
        return Ok(None);
    }
    let load = load_of(window, offsets);
    match quickest::<P>(load, None) {
        Way::Counting => {}
        _ => return Ok(None),
    }
    let search = Search {
        k,
        bits: load.bits,
        are_close: are_close(load),
    };
    let wanted = Wanted {
        offsets,
        tile,
        inner,
        search,
    };
    count_samples(alloc, window, wanted)
}

/// What `rank` gives, by counting where that is quicker. It may want memory (`NoMemory`).
pub fn rank_by_counts<P: Counted>(
    alloc: Global,
    window: &Window<P>,
    offsets: &[Offset],
    k: u32,
    tile: Rect,
) -> Result<Plane<P>, NoMemory>
    requires { length offsets.now < 2 ^ 16 }
    ensures over_window { IfOk result (λ r. IsRank P.level k (seen_at window.now) offsets.now tile r) }
    ensures over_frame { IfOk result (λ r. (f : Raster P) → IsWindow window.now f offsets.now tile → IsRank P.level k (cell_at f) offsets.now tile r) }
{
    match counted_samples(alloc, window, offsets, k, tile)? {
        Some(samples) => Ok(Plane::new(tile.width, tile.height, samples)),
        None => rank(alloc, window, offsets, k, tile),
    }
}
