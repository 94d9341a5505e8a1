//! Area openings and closings of images in levels of grey.

ghost use Rattle.std.specs.Prelude.{◌≡◌, length, map, None, IfOk, OnErr, OnOk};
ghost use Rattle.mw_model.specs.declared.shapes.Kind.TheVariants as kind_of;
ghost use Rattle.mw_geodesic.specs.Neighbours.{IsSymmetric, neighbours_of};
ghost use Rattle.mw_c_arrays.specs.Arrays.{element_in};
ghost use Rattle.mw_c_arrays.specs.Faults.{bitmap_fault};
ghost use Rattle.mw_c_arrays.specs.Sound.{IsElementBitmap};
ghost use Rattle.mw_c_arrays.specs.Sources.{IsArrayImage, array_sample_count, picture_in, source_fault};
ghost use Rattle.mw_c_calls.specs.Calls.{call_fault, room_case};
ghost use Rattle.mw_c_geodesic.specs.Told.{IsToldBySymmetry};
ghost use Rattle.mw_c_geodesic_levels.specs.Areas.{area_fault, area_filtered};

use crate::extrema::kind_fault;
use crate::images::GreyLevel;
use mw_c_arrays::{ArrayImage, Bitmap, Code, NoMemory, first_of, when};
use mw_c_geodesic::{Refusal, element, image_made, neighbours_in, plain, refused, room_fault};
use mw_geodesic::{Neighbours, is_symmetric};
use mw_geodesic_areas::{close_areas, open_areas, plain_area_closing, plain_area_opening};
use mw_model::Offset;
use mw_pixel::Image;
use mw_reference::ReferenceImage;
use std::alloc::Global;

/// What is wrong with the numbers of a kind of area operator and of a least area.
fn numbers_fault(kind: u32, least: u32) -> Option<Code>
    ensures { result ≡ area_fault kind least }
{
    first_of(&[kind_fault(kind), when(least == 0, Code::Param)])
}

/// Writes what the kernel makes under the four or the eight neighbours of an image in an array, by its samples.
fn filter_near<P: GreyLevel>(
    alloc: Global,
    numbers: (u32, u32),
    source: ArrayImage<'_>,
    samples: &[P],
    neighbours: Neighbours,
    out: &mut [P],
) -> Result<(), NoMemory>
    requires source { IsArrayImage source }
    requires kind { (picture_in source).kind ≡ kind_of.Grey }
    requires stands { P.stands (picture_in source).maxval }
    requires samples { (picture_in source).samples ≡ map P.level samples.now }
    requires room { length out.old ≡ length samples.now }
    ensures made { OnOk result (map P.level out.new ≡ (area_filtered numbers.0 (neighbours_of neighbours) numbers.1 (picture_in source.entry)).samples) }
    ensures kept { OnErr result (out.new ≡ out.old) }
{
    let (kind, least) = numbers;
    let (width, height) = (source.width(), source.height());
    if kind == 0 {
        return open_areas(alloc, samples, width, height, neighbours, least, out);
    }
    let maxval = source.maxval();
    close_areas(
        alloc, samples, width, height, maxval, neighbours, least, out,
    )
}

/// What the plain program makes under any symmetric element.
fn filtered_plainly(
    alloc: Global,
    numbers: (u32, u32),
    image: &ReferenceImage,
    around: &[Offset],
) -> Result<ReferenceImage, NoMemory>
    requires { IsSymmetric around.now }
    ensures { IfOk result (λ r. r ≡ area_filtered numbers.0 around.now numbers.1 image.now) }
{
    let (kind, least) = numbers;
    if kind == 0 {
        return plain_area_opening(alloc, image, least, around);
    }
    plain_area_closing(alloc, image, least, around)
}

/// The same of an image in an array.
fn filtered_plain(
    alloc: Global,
    numbers: (u32, u32),
    f: ArrayImage<'_>,
    around: &[Offset],
) -> Result<Image, NoMemory>
    requires image { IsArrayImage f }
    requires symmetric { IsSymmetric around.now }
    ensures { IfOk result (λ g. g ≡ area_filtered numbers.0 around.now numbers.1 (picture_in f.entry)) }
{
    let image = plain(alloc, f)?;
    let made = filtered_plainly(alloc, numbers, &image, around)?;
    image_made(alloc, &made)
}

/// Writes what a plain program makes.
fn filter_plain<P: GreyLevel>(
    alloc: Global,
    numbers: (u32, u32),
    source: ArrayImage<'_>,
    around: &[Offset],
    out: &mut [P],
) -> Result<(), NoMemory>
    requires source { IsArrayImage source }
    requires stands { P.stands (picture_in source).maxval }
    requires room { length out.old ≡ array_sample_count source }
    requires symmetric { IsSymmetric around.now }
    ensures made { OnOk result (map P.level out.new ≡ (area_filtered numbers.0 around.now numbers.1 (picture_in source.entry)).samples) }
    ensures kept { OnErr result (out.new ≡ out.old) }
{
    let made = filtered_plain(alloc, numbers, source, around)?;
    P::put(&made, out);
    Ok(())
}

/// Writes what is made under a symmetric element. It may want memory (`NoMemory`).
fn filter_under<P: GreyLevel>(
    alloc: Global,
    numbers: (u32, u32),
    source: ArrayImage<'_>,
    samples: &[P],
    around: &[Offset],
    out: &mut [P],
) -> Result<(), NoMemory>
    requires source { IsArrayImage source }
    requires kind { (picture_in source).kind ≡ kind_of.Grey }
    requires stands { P.stands (picture_in source).maxval }
    requires samples { (picture_in source).samples ≡ map P.level samples.now }
    requires room { length out.old ≡ array_sample_count source }
    requires as_many { array_sample_count source ≡ length samples.now }
    requires symmetric { IsSymmetric around.now }
    ensures made { OnOk result (map P.level out.new ≡ (area_filtered numbers.0 around.now numbers.1 (picture_in source.entry)).samples) }
    ensures kept { OnErr result (out.new ≡ out.old) }
{
    match neighbours_in(around) {
        Some(neighbours) => filter_near(alloc, numbers, source, samples, neighbours, out),
        None => filter_plain(alloc, numbers, source, around, out),
    }
}

/// Writes what is made by the element of a bitmap, unless that is not symmetric.
fn filter_by<P: GreyLevel>(
    alloc: Global,
    numbers: (u32, u32),
    source: ArrayImage<'_>,
    samples: &[P],
    b: &Bitmap<'_>,
    out: &mut [P],
) -> Result<(), Refusal>
    requires source { IsArrayImage source }
    requires kind { (picture_in source).kind ≡ kind_of.Grey }
    requires stands { P.stands (picture_in source).maxval }
    requires samples { (picture_in source).samples ≡ map P.level samples.now }
    requires room { length out.old ≡ array_sample_count source }
    requires as_many { array_sample_count source ≡ length samples.now }
    requires element { IsElementBitmap b.now }
    ensures made { OnOk result (map P.level out.new ≡ (area_filtered numbers.0 (element_in b.now) numbers.1 (picture_in source.entry)).samples) }
    ensures kept { OnErr result (out.new ≡ out.old) }
    ensures told { IsToldBySymmetry (element_in b.now) None result }
{
    let Ok(element) = element(alloc, b) else {
        return Err(Refusal::Of(Code::Memory));
    };
    let around = element.offsets();
    if !is_symmetric(around) {
        return Err(Refusal::OneWay);
    }
    match filter_under(alloc, numbers, source, samples, around, out) {
        Ok(()) => Ok(()),
        Err(NoMemory) => Err(Refusal::Of(Code::Memory)),
    }
}

/// Writes the area opening or closing of an image in an array, by its samples.
pub(crate) fn filter<P: GreyLevel>(
    alloc: Global,
    numbers: (u32, u32),
    source: ArrayImage<'_>,
    samples: &[P],
    b: &Bitmap<'_>,
    out: &mut [P],
) -> Result<(), Refusal>
    requires kind { (picture_in source).kind ≡ kind_of.Grey }
    requires stands { IsArrayImage source → P.stands (picture_in source).maxval }
    requires samples { (picture_in source).samples ≡ map P.level samples.now }
    requires as_many { array_sample_count source ≡ length samples.now }
    ensures made { OnOk result (map P.level out.new ≡ (area_filtered numbers.0 (element_in b.now) numbers.1 (picture_in source.entry)).samples) }
    ensures kept { OnErr result (out.new ≡ out.old) }
    ensures told { IsToldBySymmetry (element_in b.now) (call_fault (area_fault numbers.0 numbers.1) (source_fault source.entry) (room_case (length out.old) (array_sample_count source.entry)) (bitmap_fault b.now)) result }
{
    let number = numbers_fault(numbers.0, numbers.1);
    let places = room_fault(out.len(), source.count());
    if let Some(code) = refused(number, source.fault(), places, b.fault()) {
        return Err(Refusal::Of(code));
    }
    filter_by(alloc, numbers, source, samples, b, out)
}
