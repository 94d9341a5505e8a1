//! Components of sets that are large enough.

ghost use Rattle.std.specs.Prelude.{◌≡◌, length, None, IfOk, OnErr, OnOk};
ghost use Rattle.mw_model.specs.Pictures.{IsImage};
ghost use Rattle.mw_geodesic.specs.Components.{large_components};
ghost use Rattle.mw_geodesic.specs.Neighbours.{IsSymmetric, neighbours_of};
ghost use Rattle.mw_c_arrays.specs.Arrays.{element_in, set_picture};
ghost use Rattle.mw_c_arrays.specs.Faults.{bitmap_fault, set_fault};
ghost use Rattle.mw_c_arrays.specs.Sound.{IsElementBitmap};
ghost use Rattle.mw_c_calls.specs.Calls.{call_fault, room_case};
ghost use Rattle.mw_c_geodesic.specs.CallFaults.{nothing_case};
ghost use Rattle.mw_c_geodesic.specs.Told.{IsToldBySymmetry};

use crate::alike::neighbours_in;
use crate::elements::element;
use crate::faults::{refused, room_fault};
use crate::images::{image_made, plain};
use crate::refusals::Refusal;
use mw_c_arrays::{ArrayImage, Bitmap, Code, NoMemory, Set, put_bytes, when};
use mw_geodesic::{Neighbours, area_opening_of_set, is_symmetric};
use mw_geodesic_kept::write_large_components;
use mw_model::Offset;
use mw_pixel::Image;
use std::alloc::Global;

/// Writes the large components under the four or the eight neighbours, by the kernel.
fn large_near(
    alloc: Global,
    least: u32,
    f: Set<'_>,
    neighbours: Neighbours,
    out: &mut [u8],
) -> Result<(), NoMemory>
    requires image { IsImage (set_picture f) }
    requires room { length out.old ≡ length f.pixels.now }
    ensures made { OnOk result (out.new ≡ (large_components (neighbours_of neighbours) least (set_picture f.entry)).samples) }
    ensures kept { OnErr result (out.new ≡ out.old) }
{
    let set = f.plane(alloc)?;
    write_large_components(alloc, set, neighbours, least, out)
}

/// The large components under any element, by the plain program.
fn large_plain(alloc: Global, least: u32, f: Set<'_>, around: &[Offset]) -> Result<Image, NoMemory>
    requires image { IsImage (set_picture f) }
    requires symmetric { IsSymmetric around.now }
    ensures { IfOk result (λ g. g ≡ large_components around.now least (set_picture f.entry)) }
{
    let set = plain(alloc, ArrayImage::Pixels(f))?;
    let made = area_opening_of_set(alloc, &set, least, around)?;
    image_made(alloc, &made)
}

/// Writes the large components under any element, by the plain program.
fn large_far(
    alloc: Global,
    least: u32,
    f: Set<'_>,
    around: &[Offset],
    out: &mut [u8],
) -> Result<(), NoMemory>
    requires image { IsImage (set_picture f) }
    requires symmetric { IsSymmetric around.now }
    requires room { length out.old ≡ length f.pixels.now }
    ensures made { OnOk result (out.new ≡ (large_components around.now least (set_picture f.entry)).samples) }
    ensures kept { OnErr result (out.new ≡ out.old) }
{
    let made = large_plain(alloc, least, f, around)?;
    put_bytes(&made, out);
    Ok(())
}

/// Writes the components of so many pixels and more. It may want memory (`NoMemory`).
fn large_under(
    alloc: Global,
    least: u32,
    f: Set<'_>,
    around: &[Offset],
    out: &mut [u8],
) -> Result<(), NoMemory>
    requires image { IsImage (set_picture f) }
    requires symmetric { IsSymmetric around.now }
    requires room { length out.old ≡ length f.pixels.now }
    ensures made { OnOk result (out.new ≡ (large_components around.now least (set_picture f.entry)).samples) }
    ensures kept { OnErr result (out.new ≡ out.old) }
{
    match neighbours_in(around) {
        Some(neighbours) => large_near(alloc, least, f, neighbours, out),
        None => large_far(alloc, least, f, around, out),
    }
}

/// Writes them by the element of a bitmap, unless that is not symmetric.
fn large_by(
    alloc: Global,
    least: u32,
    f: Set<'_>,
    b: &Bitmap<'_>,
    out: &mut [u8],
) -> Result<(), Refusal>
    requires image { IsImage (set_picture f) }
    requires element { IsElementBitmap b.now }
    requires room { length out.old ≡ length f.pixels.now }
    ensures made { OnOk result (out.new ≡ (large_components (element_in b.now) least (set_picture f.entry)).samples) }
    ensures kept { OnErr result (out.new ≡ out.old) }
    ensures told { IsToldBySymmetry (element_in b.now) None result }
{
    let Ok(element) = element(alloc, b) else {
        return Err(Refusal::Of(Code::Memory));
    };
    let around = element.offsets();
    if !is_symmetric(around) {
        return Err(Refusal::OneWay);
    }
    match large_under(alloc, least, f, around, out) {
        Ok(()) => Ok(()),
        Err(NoMemory) => Err(Refusal::Of(Code::Memory)),
    }
}

/// Writes the large components of a set into an array.
pub(crate) fn large(
    alloc: Global,
    least: u32,
    f: Set<'_>,
    b: &Bitmap<'_>,
    out: &mut [u8],
) -> Result<(), Refusal>
    ensures made { OnOk result (out.new ≡ (large_components (element_in b.now) least (set_picture f.entry)).samples) }
    ensures kept { OnErr result (out.new ≡ out.old) }
    ensures told { IsToldBySymmetry (element_in b.now) (call_fault (nothing_case least) (set_fault f.entry) (room_case (length out.old) (length f.entry.pixels.now)) (bitmap_fault b.now)) result }
{
    let number = when(least == 0, Code::Param);
    let places = room_fault(out.len(), f.pixels.len());
    if let Some(code) = refused(number, f.fault(), places, b.fault()) {
        return Err(Refusal::Of(code));
    }
    large_by(alloc, least, f, b, out)
}
