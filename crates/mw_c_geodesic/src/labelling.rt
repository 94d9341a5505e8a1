//! Labels of sets that stand in arrays.

ghost use Rattle.std.specs.Prelude.{◌≡◌, length, None, IfErr, IfOk};
ghost use Rattle.mw_model.specs.Pictures.{IsImage};
ghost use Rattle.mw_geodesic.specs.Labels.{IsLabelling};
ghost use Rattle.mw_geodesic.specs.Neighbours.{IsSymmetric, neighbours_of};
ghost use Rattle.mw_c_arrays.specs.Arrays.{element_in, set_picture};
ghost use Rattle.mw_c_arrays.specs.Faults.{bitmap_fault, set_fault};
ghost use Rattle.mw_c_arrays.specs.Sound.{IsElementBitmap};
ghost use Rattle.mw_c_calls.specs.Calls.{call_fault, room_case};
ghost use Rattle.mw_c_geodesic.specs.Told.{IsToldBySymmetry};

use crate::alike::neighbours_in;
use crate::elements::element;
use crate::faults::{refused, room_fault};
use crate::images::plain;
use crate::refusals::Refusal;
use mw_c_arrays::{ArrayImage, Bitmap, Code, NoMemory, Set};
use mw_geodesic::{Labels, Neighbours, is_symmetric, labelled};
use mw_geodesic_labels::{Labelled, write_labels};
use mw_model::Offset;
use std::alloc::Global;

/// Writes the labels under the four or the eight neighbours, by the kernel.
fn labels_near(
    alloc: Global,
    f: Set<'_>,
    neighbours: Neighbours,
    out: &mut [u32],
) -> Result<u32, NoMemory>
    requires image { IsImage (set_picture f) }
    requires room { length out.old ≡ length f.pixels.now }
    ensures made { IfOk result (λ n. IsLabelling (neighbours_of neighbours) (set_picture f.entry) n out.new) }
    ensures kept { IfErr result (λ _. out.new ≡ out.old) }
{
    let set = f.plane(alloc)?;
    write_labels(alloc, &set, neighbours, out)
}

/// The labels under any element, by the plain program.
pub(crate) fn labels_plain(
    alloc: Global,
    f: Set<'_>,
    around: &[Offset],
) -> Result<Labelled, NoMemory>
    requires image { IsImage (set_picture f) }
    requires symmetric { IsSymmetric around.now }
    ensures { IfOk result (λ r. IsLabelling around.now (set_picture f.entry) r.count r.labels.items) }
{
    let set = plain(alloc, ArrayImage::Pixels(f))?;
    let Labels { count, labels } = labelled(alloc, &set, around)?;
    Ok(Labelled { count, labels })
}

/// Writes the labels under any element, by the plain program.
fn labels_far(
    alloc: Global,
    f: Set<'_>,
    around: &[Offset],
    out: &mut [u32],
) -> Result<u32, NoMemory>
    requires image { IsImage (set_picture f) }
    requires symmetric { IsSymmetric around.now }
    requires room { length out.old ≡ length f.pixels.now }
    ensures made { IfOk result (λ n. IsLabelling around.now (set_picture f.entry) n out.new) }
    ensures kept { IfErr result (λ _. out.new ≡ out.old) }
{
    let found = labels_plain(alloc, f, around)?;
    out.copy_from_slice(&found.labels);
    Ok(found.count)
}

/// Writes the labels of the components of a set. It may want memory (`NoMemory`).
fn labels_under(
    alloc: Global,
    f: Set<'_>,
    around: &[Offset],
    out: &mut [u32],
) -> Result<u32, NoMemory>
    requires image { IsImage (set_picture f) }
    requires symmetric { IsSymmetric around.now }
    requires room { length out.old ≡ length f.pixels.now }
    ensures made { IfOk result (λ n. IsLabelling around.now (set_picture f.entry) n out.new) }
    ensures kept { IfErr result (λ _. out.new ≡ out.old) }
{
    match neighbours_in(around) {
        Some(neighbours) => labels_near(alloc, f, neighbours, out),
        None => labels_far(alloc, f, around, out),
    }
}

/// Writes the labels by the element of a bitmap, unless that is not symmetric.
fn labels_by(alloc: Global, f: Set<'_>, b: &Bitmap<'_>, out: &mut [u32]) -> Result<u32, Refusal>
    requires image { IsImage (set_picture f) }
    requires element { IsElementBitmap b.now }
    requires room { length out.old ≡ length f.pixels.now }
    ensures made { IfOk result (λ n. IsLabelling (element_in b.now) (set_picture f.entry) n out.new) }
    ensures kept { IfErr result (λ _. out.new ≡ out.old) }
    ensures told { IsToldBySymmetry (element_in b.now) None result }
{
    let Ok(element) = element(alloc, b) else {
        return Err(Refusal::Of(Code::Memory));
    };
    let around = element.offsets();
    if !is_symmetric(around) {
        return Err(Refusal::OneWay);
    }
    match labels_under(alloc, f, around, out) {
        Ok(count) => Ok(count),
        Err(NoMemory) => Err(Refusal::Of(Code::Memory)),
    }
}

/// Writes the labels of a set into an array. The answer is how many there are.
pub(crate) fn labels(
    alloc: Global,
    f: Set<'_>,
    b: &Bitmap<'_>,
    out: &mut [u32],
) -> Result<u32, Refusal>
    ensures made { IfOk result (λ n. IsLabelling (element_in b.now) (set_picture f.entry) n out.new) }
    ensures kept { IfErr result (λ _. out.new ≡ out.old) }
    ensures told { IsToldBySymmetry (element_in b.now) (call_fault None (set_fault f.entry) (room_case (length out.old) (length f.entry.pixels.now)) (bitmap_fault b.now)) result }
{
    let image = f.fault();
    let places = room_fault(out.len(), f.pixels.len());
    if let Some(code) = refused(None, image, places, b.fault()) {
        return Err(Refusal::Of(code));
    }
    labels_by(alloc, f, b, out)
}
