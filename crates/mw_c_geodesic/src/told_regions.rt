//! What labels tell of the components of a set.

ghost use Rattle.std.specs.Prelude.{◌≡◌, ℕ, ◌*◌, ◌-◌, ◌<◌, ◌≤◌, ◌^◌, List, length, slice_index_or, vec_len, IfOk};
ghost use Rattle.mw_model.specs.declared.limits.TheConstants.{SIDE_LIMIT};
ghost use Rattle.mw_model.specs.declared.offsets.Offset.{Offset};
ghost use Rattle.mw_model.specs.Pictures.{Picture};
ghost use Rattle.mw_geodesic.specs.Labels.{IsLabelling};
ghost use Rattle.mw_geodesic_labels.specs.Regions.{AreRegionsOf};
ghost use Rattle.mw_c_geodesic.specs.Sides.{AreTables, IsRegionIn};

use crate::sides::{Side, nearest};
use mw_geodesic::areas;
use mw_geodesic_labels::Region;
use mw_model::NoMemory;
use std::alloc::Global;

/// Of the places with each label, how far the nearest is from the first one and from the four sides, and how many there are.
#[derive(Drop)]
pub(crate) struct Tables {
    first: Vec<u32>,
    left: Vec<u32>,
    top: Vec<u32>,
    right: Vec<u32>,
    bottom: Vec<u32>,
    areas: Vec<u32>,
}

/// The tables of labels.
fn tables_of(
    alloc: Global,
    labels: &[u32],
    count: u32,
    width: u32,
    height: u32,
) -> Result<Tables, NoMemory>
    requires some { 1 ≤ width }
    requires size { length labels.now ≡ height * width }
    requires few { height * width < 2 ^ 32 - 1 }
    ensures { IfOk result (λ t. AreTables labels.now count width height t) }
{
    Ok(Tables {
        first: nearest(alloc, Side::First, labels, count, width, height)?,
        left: nearest(alloc, Side::Left, labels, count, width, height)?,
        top: nearest(alloc, Side::Top, labels, count, width, height)?,
        right: nearest(alloc, Side::Right, labels, count, width, height)?,
        bottom: nearest(alloc, Side::Bottom, labels, count, width, height)?,
        areas: areas(alloc, labels, count)?,
    })
}

/// What is told of one label.
fn region_in(t: &Tables, width: u32, height: u32, k: usize) -> Region
    requires some { 1 ≤ width }
    requires first { k < vec_len t.now.first }
    requires left { k < vec_len t.now.left }
    requires top { k < vec_len t.now.top }
    requires right { k < vec_len t.now.right }
    requires bottom { k < vec_len t.now.bottom }
    requires areas { k < vec_len t.now.areas }
    ensures { IsRegionIn t.now width height k result }
{
    let first = t.first[k];
    Region {
        x: first % width,
        y: first / width,
        area: t.areas[k],
        left: t.left[k],
        top: t.top[k],
        right: (width - 1).saturating_sub(t.right[k]),
        bottom: height.saturating_sub(1).saturating_sub(t.bottom[k]),
    }
}

/// What is told of each label.
fn regions_in(
    alloc: Global,
    t: &Tables,
    count: u32,
    width: u32,
    height: u32,
) -> Result<Vec<Region>, NoMemory>
    requires some { 1 ≤ width }
    requires first { vec_len t.now.first ≡ count }
    requires left { vec_len t.now.left ≡ count }
    requires top { vec_len t.now.top ≡ count }
    requires right { vec_len t.now.right ≡ count }
    requires bottom { vec_len t.now.bottom ≡ count }
    requires areas { vec_len t.now.areas ≡ count }
    ensures size { IfOk result (λ r. length r.items ≡ count) }
    ensures each { IfOk result (λ r. (k : ℕ) (d : Region) → k < count → IsRegionIn t.now width height k (slice_index_or r.items k d)) }
{
    let mut regions = Vec::new(alloc);
    for k in 0..count as usize {
        regions.push(region_in(t, width, height, k))?;
    }
    Ok(regions)
}

/// What is told of each component of a set with these labels. It may want memory (`NoMemory`).
pub(crate) fn regions_told(
    alloc: Global,
    labels: &[u32],
    count: u32,
    width: u32,
    height: u32,
) -> Result<Vec<Region>, NoMemory>
    requires some { 1 ≤ width }
    requires narrow { width ≤ SIDE_LIMIT }
    requires low { height ≤ SIDE_LIMIT }
    requires size { length labels.now ≡ height * width }
    requires few { height * width < 2 ^ 32 - 1 }
    ensures size { IfOk result (λ r. length r.items ≡ count) }
    ensures told { IfOk result (λ r. (e : List Offset) (f : Picture) → f.width ≡ width → f.height ≡ height → IsLabelling e f count labels.now → AreRegionsOf e f r.items) }
{
    let t = tables_of(alloc, labels, count, width, height)?;
    let regions = regions_in(alloc, &t, count, width, height)?;
    Ok(regions)
}
