//! What is told of the components of sets that stand in arrays, and their labels, written into arrays of the caller.

ghost use Rattle.std.specs.Prelude.{◌≡◌, length, None, IfErr, IfOk};
ghost use Rattle.mw_model.specs.Pictures.{IsImage};
ghost use Rattle.mw_geodesic.specs.Neighbours.{IsSymmetric, neighbours_of};
ghost use Rattle.mw_geodesic_labels.specs.Regions.{AreRegionsWithLabels};
ghost use Rattle.mw_c_arrays.specs.Arrays.{element_in, set_picture};
ghost use Rattle.mw_c_arrays.specs.Faults.{bitmap_fault, set_fault};
ghost use Rattle.mw_c_arrays.specs.Sound.{IsElementBitmap};
ghost use Rattle.mw_c_calls.specs.Calls.{call_fault, room_case};
ghost use Rattle.mw_c_geodesic.specs.Told.{IsToldBySymmetry};

use crate::alike::neighbours_in;
use crate::elements::element;
use crate::faults::{refused, room_fault};
use crate::labelling::labels_plain;
use crate::refusals::Refusal;
use crate::region_rows::put_regions_and_labels;
use crate::told_regions::regions_told;
use mw_c_arrays::{Bitmap, Code, NoMemory, Set};
use mw_geodesic::{Neighbours, is_symmetric};
use mw_geodesic_labels::label_and_measure;
use mw_model::Offset;
use std::alloc::Global;

/// Writes both under the four or the eight neighbours, by the kernel.
fn measured_near(
    alloc: Global,
    f: Set<'_>,
    neighbours: Neighbours,
    rows: &mut [u32],
    out: &mut [u32],
) -> Result<u32, NoMemory>
    requires image { IsImage (set_picture f) }
    requires room { length out.old ≡ length f.pixels.now }
    ensures made { IfOk result (λ n. AreRegionsWithLabels (neighbours_of neighbours) (set_picture f.entry) n rows.old rows.new out.old out.new) }
    ensures kept { IfErr result (λ _. (rows.new ≡ rows.old) × (out.new ≡ out.old)) }
{
    let set = f.plane(alloc)?;
    label_and_measure(alloc, &set, neighbours, rows, out)
}

/// Writes both under any element, by the labels of the plain program.
fn measured_far(
    alloc: Global,
    f: Set<'_>,
    around: &[Offset],
    rows: &mut [u32],
    out: &mut [u32],
) -> Result<u32, NoMemory>
    requires image { IsImage (set_picture f) }
    requires symmetric { IsSymmetric around.now }
    requires room { length out.old ≡ length f.pixels.now }
    ensures made { IfOk result (λ n. AreRegionsWithLabels around.now (set_picture f.entry) n rows.old rows.new out.old out.new) }
    ensures kept { IfErr result (λ _. (rows.new ≡ rows.old) × (out.new ≡ out.old)) }
{
    let found = labels_plain(alloc, f, around)?;
    let regions = regions_told(alloc, &found.labels, found.count, f.width, f.height)?;
    put_regions_and_labels(rows, &regions, out, &found.labels);
    Ok(found.count)
}

/// Writes what is told of each component of a set, by first places, and its labels, where there is room for what is told of all.
/// The answer is how many there are. It may want memory (`NoMemory`).
fn measured_under(
    alloc: Global,
    f: Set<'_>,
    around: &[Offset],
    rows: &mut [u32],
    out: &mut [u32],
) -> Result<u32, NoMemory>
    requires image { IsImage (set_picture f) }
    requires symmetric { IsSymmetric around.now }
    requires room { length out.old ≡ length f.pixels.now }
    ensures made { IfOk result (λ n. AreRegionsWithLabels around.now (set_picture f.entry) n rows.old rows.new out.old out.new) }
    ensures kept { IfErr result (λ _. (rows.new ≡ rows.old) × (out.new ≡ out.old)) }
{
    match neighbours_in(around) {
        Some(neighbours) => measured_near(alloc, f, neighbours, rows, out),
        None => measured_far(alloc, f, around, rows, out),
    }
}

/// The same by the element of a bitmap, unless that is not symmetric.
fn measured_by(
    alloc: Global,
    f: Set<'_>,
    b: &Bitmap<'_>,
    rows: &mut [u32],
    out: &mut [u32],
) -> Result<u32, Refusal>
    requires image { IsImage (set_picture f) }
    requires element { IsElementBitmap b.now }
    requires room { length out.old ≡ length f.pixels.now }
    ensures made { IfOk result (λ n. AreRegionsWithLabels (element_in b.now) (set_picture f.entry) n rows.old rows.new out.old out.new) }
    ensures kept { IfErr result (λ _. (rows.new ≡ rows.old) × (out.new ≡ out.old)) }
    ensures told { IsToldBySymmetry (element_in b.now) None result }
{
    let Ok(element) = element(alloc, b) else {
        return Err(Refusal::Of(Code::Memory));
    };
    let around = element.offsets();
    if !is_symmetric(around) {
        return Err(Refusal::OneWay);
    }
    match measured_under(alloc, f, around, rows, out) {
        Ok(count) => Ok(count),
        Err(NoMemory) => Err(Refusal::Of(Code::Memory)),
    }
}

/// Writes what is told of the components of a set in an array, and its labels, where there is room for what is told of all. The
/// answer is how many there are.
pub(crate) fn measured(
    alloc: Global,
    f: Set<'_>,
    b: &Bitmap<'_>,
    rows: &mut [u32],
    out: &mut [u32],
) -> Result<u32, Refusal>
    ensures made { IfOk result (λ n. AreRegionsWithLabels (element_in b.now) (set_picture f.entry) n rows.old rows.new out.old out.new) }
    ensures kept { IfErr result (λ _. (rows.new ≡ rows.old) × (out.new ≡ out.old)) }
    ensures told { IsToldBySymmetry (element_in b.now) (call_fault None (set_fault f.entry) (room_case (length out.old) (length f.entry.pixels.now)) (bitmap_fault b.now)) result }
{
    let image = f.fault();
    let places = room_fault(out.len(), f.pixels.len());
    if let Some(code) = refused(None, image, places, b.fault()) {
        return Err(Refusal::Of(code));
    }
    measured_by(alloc, f, b, rows, out)
}
