//! What is told of the components of sets that stand in arrays, written into an array of the caller.

ghost use Rattle.std.specs.Prelude.{◌≡◌, None, IfErr, IfOk};
ghost use Rattle.mw_model.specs.Pictures.{IsImage};
ghost use Rattle.mw_geodesic.specs.Neighbours.{IsSymmetric, neighbours_of};
ghost use Rattle.mw_geodesic_labels.specs.Regions.{AreRegionsTold};
ghost use Rattle.mw_c_arrays.specs.Arrays.{element_in, set_picture};
ghost use Rattle.mw_c_arrays.specs.Faults.{bitmap_fault, set_fault};
ghost use Rattle.mw_c_arrays.specs.Sound.{IsElementBitmap};
ghost use Rattle.mw_c_calls.specs.Calls.{call_fault};
ghost use Rattle.mw_c_geodesic.specs.Told.{IsToldBySymmetry};

use crate::alike::neighbours_in;
use crate::elements::element;
use crate::faults::refused;
use crate::labelling::labels_plain;
use crate::refusals::Refusal;
use crate::region_rows::put_regions;
use crate::told_regions::regions_told;
use mw_c_arrays::{Bitmap, Code, NoMemory, Set};
use mw_geodesic::{Neighbours, is_symmetric};
use mw_geodesic_labels::write_regions;
use mw_model::Offset;
use std::alloc::Global;

/// Writes what is told of the components under the four or the eight neighbours, by the kernel.
fn regions_near(
    alloc: Global,
    f: Set<'_>,
    neighbours: Neighbours,
    out: &mut [u32],
) -> Result<u32, NoMemory>
    requires { IsImage (set_picture f) }
    ensures made { IfOk result (λ n. AreRegionsTold (neighbours_of neighbours) (set_picture f.entry) n out.old out.new) }
    ensures kept { IfErr result (λ _. out.new ≡ out.old) }
{
    let set = f.plane(alloc)?;
    write_regions(alloc, &set, neighbours, out)
}

/// Writes what is told of the components under any element, by the labels of the plain program.
fn regions_plain(
    alloc: Global,
    f: Set<'_>,
    around: &[Offset],
    out: &mut [u32],
) -> Result<u32, NoMemory>
    requires image { IsImage (set_picture f) }
    requires symmetric { IsSymmetric around.now }
    ensures made { IfOk result (λ n. AreRegionsTold around.now (set_picture f.entry) n out.old out.new) }
    ensures kept { IfErr result (λ _. out.new ≡ out.old) }
{
    let found = labels_plain(alloc, f, around)?;
    let regions = regions_told(alloc, &found.labels, found.count, f.width, f.height)?;
    put_regions(out, &regions);
    Ok(found.count)
}

/// Writes what is told of each component of a set, by first places, where there is room for all. The answer is how many there
/// are. It may want memory (`NoMemory`).
fn regions_under(
    alloc: Global,
    f: Set<'_>,
    around: &[Offset],
    out: &mut [u32],
) -> Result<u32, NoMemory>
    requires image { IsImage (set_picture f) }
    requires symmetric { IsSymmetric around.now }
    ensures made { IfOk result (λ n. AreRegionsTold around.now (set_picture f.entry) n out.old out.new) }
    ensures kept { IfErr result (λ _. out.new ≡ out.old) }
{
    match neighbours_in(around) {
        Some(neighbours) => regions_near(alloc, f, neighbours, out),
        None => regions_plain(alloc, f, around, out),
    }
}

/// The same by the element of a bitmap, unless that is not symmetric.
fn regions_by(alloc: Global, f: Set<'_>, b: &Bitmap<'_>, out: &mut [u32]) -> Result<u32, Refusal>
    requires image { IsImage (set_picture f) }
    requires element { IsElementBitmap b.now }
    ensures made { IfOk result (λ n. AreRegionsTold (element_in b.now) (set_picture f.entry) n out.old out.new) }
    ensures kept { IfErr result (λ _. out.new ≡ out.old) }
    ensures told { IsToldBySymmetry (element_in b.now) None result }
{
    let Ok(element) = element(alloc, b) else {
        return Err(Refusal::Of(Code::Memory));
    };
    let around = element.offsets();
    if !is_symmetric(around) {
        return Err(Refusal::OneWay);
    }
    match regions_under(alloc, f, around, out) {
        Ok(count) => Ok(count),
        Err(NoMemory) => Err(Refusal::Of(Code::Memory)),
    }
}

/// Writes what is told of the components of a set in an array, where there is room for all. The answer is how many there are.
pub(crate) fn regions(
    alloc: Global,
    f: Set<'_>,
    b: &Bitmap<'_>,
    out: &mut [u32],
) -> Result<u32, Refusal>
    ensures made { IfOk result (λ n. AreRegionsTold (element_in b.now) (set_picture f.entry) n out.old out.new) }
    ensures kept { IfErr result (λ _. out.new ≡ out.old) }
    ensures told { IsToldBySymmetry (element_in b.now) (call_fault None (set_fault f.entry) None (bitmap_fault b.now)) result }
{
    if let Some(code) = refused(None, f.fault(), None, b.fault()) {
        return Err(Refusal::Of(code));
    }
    regions_by(alloc, f, b, out)
}
