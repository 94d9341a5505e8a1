//! Reconstruction of images, by dilation and by erosion.

ghost use Rattle.std.specs.Prelude.{◌≡◌, ◌≤◌, All, IfOk};
ghost use Rattle.mw_model.specs.Laws.{SameShape};
ghost use Rattle.mw_model.specs.Pictures.{IsImage};
ghost use Rattle.mw_model.specs.declared.shapes.Kind.TheVariants as kind;
ghost use Rattle.mw_pixel.specs.Images.{set_of};
ghost use Rattle.mw_geodesic.specs.Geodesics.{reconstruction};
ghost use Rattle.mw_geodesic.specs.Neighbours.{neighbours_of};
ghost use Rattle.mw_geodesic_levels.specs.Pictures.{picture_by};
ghost use Rattle.mw_c_arrays.specs.Arrays.{grey16_picture, grey8_picture};
ghost use Rattle.mw_c_arrays.specs.Sound.{IsGrey16, IsGrey8};
ghost use Rattle.mw_c_arrays.specs.Sources.{IsArrayImage, picture_in};
ghost use Rattle.mw_c_geodesic.specs.Methods.{rebuilt_by};

use crate::alike::neighbours_in;
use crate::images::{bits, image_made, plain};
use crate::turning::turned;
use mw_c_arrays::{ArrayImage, Grey8, Grey16, NoMemory};
use mw_geodesic::{Neighbours, reconstruction_by_erosion};
use mw_geodesic_grey::reconstruct_by_erosion;
use mw_geodesic_kept::reconstruction_of_set;
use mw_geodesic_levels::reconstruct;
use mw_model::Offset;
use mw_pixel::{Bit, Grey, Image, Plane, View};
use mw_reference::ReferenceImage;
use std::alloc::Global;
use std::sync::Arc;

/// Levels of one byte that stand in an array.
fn bytes_in(f: ArrayImage<'_>) -> Grey8<'_>
    requires image { IsArrayImage f }
    requires kind { (picture_in f).kind ≡ kind.Grey }
    requires low { (picture_in f).maxval ≤ 255 }
    ensures sound { IsGrey8 result }
    ensures value { grey8_picture result ≡ picture_in f.entry }
{
    match f {
        ArrayImage::Grey8(grey) => grey,
        ArrayImage::Grey16(_) => unreachable!(),
        ArrayImage::Pixels(_) => unreachable!(),
    }
}

/// Levels of two bytes that stand in an array.
fn words_in(f: ArrayImage<'_>) -> Grey16<'_>
    requires image { IsArrayImage f }
    requires kind { (picture_in f).kind ≡ kind.Grey }
    requires high { 256 ≤ (picture_in f).maxval }
    ensures sound { IsGrey16 result }
    ensures value { grey16_picture result ≡ picture_in f.entry }
{
    match f {
        ArrayImage::Grey16(grey) => grey,
        ArrayImage::Grey8(_) => unreachable!(),
        ArrayImage::Pixels(_) => unreachable!(),
    }
}

/// The reconstruction of a method of planes of levels, in the memory of the marker.
fn rebuilt_planes<P: Grey>(
    alloc: Global,
    method: u32,
    marker: Plane<P>,
    mask: Plane<P>,
    maxval: u16,
    neighbours: Neighbours,
) -> Result<Plane<P>, NoMemory>
    requires width { marker.width ≡ mask.width }
    requires height { marker.height ≡ mask.height }
    requires top { maxval ≤ P.top_level }
    requires marker { All (λ s. P.level s ≤ maxval) marker.cells }
    requires mask { All (λ s. P.level s ≤ maxval) mask.cells }
    ensures { IfOk result (λ r. picture_by P.level maxval r ≡ rebuilt_by method (neighbours_of neighbours) (picture_by P.level maxval mask) (picture_by P.level maxval marker)) }
{
    if method == 0 {
        return reconstruct(alloc, marker, &mask, neighbours);
    }
    reconstruct_by_erosion(alloc, marker, mask, maxval, neighbours)
}

/// The reconstruction of a method of levels of one byte in arrays.
fn rebuilt_bytes(
    alloc: Global,
    method: u32,
    marker: Grey8<'_>,
    mask: Grey8<'_>,
    neighbours: Neighbours,
) -> Result<Image, NoMemory>
    requires marker { IsGrey8 marker }
    requires mask { IsGrey8 mask }
    requires shape { SameShape (grey8_picture marker) (grey8_picture mask) }
    ensures { IfOk result (λ g. g ≡ rebuilt_by method (neighbours_of neighbours) (grey8_picture mask.entry) (grey8_picture marker.entry)) }
{
    let marker_samples = Vec::from_slice(alloc, marker.samples)?;
    let below = Plane::new(marker.width, marker.height, marker_samples);
    let mask_samples = Vec::from_slice(alloc, mask.samples)?;
    let within = Plane::new(mask.width, mask.height, mask_samples);
    let made = rebuilt_planes(alloc, method, below, within, mask.maxval as u16, neighbours)?;
    Ok(Image::grey8(Arc::new(alloc, made)?, mask.maxval as u8))
}

/// The reconstruction of a method of levels of two bytes in arrays.
fn rebuilt_words(
    alloc: Global,
    method: u32,
    marker: Grey16<'_>,
    mask: Grey16<'_>,
    neighbours: Neighbours,
) -> Result<Image, NoMemory>
    requires marker { IsGrey16 marker }
    requires mask { IsGrey16 mask }
    requires shape { SameShape (grey16_picture marker) (grey16_picture mask) }
    ensures { IfOk result (λ g. g ≡ rebuilt_by method (neighbours_of neighbours) (grey16_picture mask.entry) (grey16_picture marker.entry)) }
{
    let marker_samples = Vec::from_slice(alloc, marker.samples)?;
    let below = Plane::new(marker.width, marker.height, marker_samples);
    let mask_samples = Vec::from_slice(alloc, mask.samples)?;
    let within = Plane::new(mask.width, mask.height, mask_samples);
    let made = rebuilt_planes(alloc, method, below, within, mask.maxval as u16, neighbours)?;
    Ok(Image::grey16(Arc::new(alloc, made)?, mask.maxval as u16))
}

/// The pixels of a set.
fn bits_in(image: &Image) -> &Plane<Bit>
    requires { image.now.kind ≡ kind.Bit }
    ensures { image.now ≡ set_of result.now }
{
    match image.view() {
        View::Bits(set) => set,
        View::Grey8(_, _) => unreachable!(),
        View::Grey16(_, _) => unreachable!(),
    }
}

/// The reconstruction of a set by dilation under the four or the eight neighbours, by the kernel.
fn dilated_set(
    alloc: Global,
    marker: &Image,
    mask: &Image,
    neighbours: Neighbours,
) -> Result<Image, NoMemory>
    requires image { IsImage mask.now }
    requires kind { mask.now.kind ≡ kind.Bit }
    requires shape { SameShape marker.now mask.now }
    ensures { IfOk result (λ g. g ≡ reconstruction (neighbours_of neighbours) mask.now marker.now) }
{
    let made = reconstruction_of_set(alloc, bits_in(marker), bits_in(mask), neighbours)?;
    bits(alloc, made)
}

/// The reconstruction of a set by a method: by erosion it is the complement of that of the complements.
fn rebuilt_set(
    alloc: Global,
    method: u32,
    marker: &Image,
    mask: &Image,
    neighbours: Neighbours,
) -> Result<Image, NoMemory>
    requires marker { IsImage marker.now }
    requires mask { IsImage mask.now }
    requires kind { mask.now.kind ≡ kind.Bit }
    requires shape { SameShape marker.now mask.now }
    ensures { IfOk result (λ g. g ≡ rebuilt_by method (neighbours_of neighbours) mask.now marker.now) }
{
    if method == 0 {
        return dilated_set(alloc, marker, mask, neighbours);
    }
    let below = turned(alloc, marker)?;
    let within = turned(alloc, mask)?;
    let rebuilt = dilated_set(alloc, &below, &within, neighbours)?;
    turned(alloc, &rebuilt)
}

/// The same of sets in arrays.
fn rebuilt_pixels(
    alloc: Global,
    method: u32,
    marker: ArrayImage<'_>,
    mask: ArrayImage<'_>,
    neighbours: Neighbours,
) -> Result<Image, NoMemory>
    requires marker { IsArrayImage marker }
    requires mask { IsArrayImage mask }
    requires kind { (picture_in mask).kind ≡ kind.Bit }
    requires shape { SameShape (picture_in marker) (picture_in mask) }
    ensures { IfOk result (λ g. g ≡ rebuilt_by method (neighbours_of neighbours) (picture_in mask.entry) (picture_in marker.entry)) }
{
    let marker = marker.image(alloc)?;
    let mask = mask.image(alloc)?;
    rebuilt_set(alloc, method, &marker, &mask, neighbours)
}

/// The reconstruction of a method of images in arrays under the four or the eight neighbours, by the kernels.
fn rebuilt_kernel(
    alloc: Global,
    method: u32,
    marker: ArrayImage<'_>,
    mask: ArrayImage<'_>,
    neighbours: Neighbours,
) -> Result<Image, NoMemory>
    requires marker { IsArrayImage marker }
    requires mask { IsArrayImage mask }
    requires shape { SameShape (picture_in marker) (picture_in mask) }
    ensures { IfOk result (λ g. g ≡ rebuilt_by method (neighbours_of neighbours) (picture_in mask.entry) (picture_in marker.entry)) }
{
    match mask {
        ArrayImage::Grey8(f) => rebuilt_bytes(alloc, method, bytes_in(marker), f, neighbours),
        ArrayImage::Grey16(f) => rebuilt_words(alloc, method, words_in(marker), f, neighbours),
        ArrayImage::Pixels(_) => rebuilt_pixels(alloc, method, marker, mask, neighbours),
    }
}

/// The reconstruction of a method under any element, by the plain programs.
fn rebuilt_plainly(
    alloc: Global,
    method: u32,
    marker: &ReferenceImage,
    mask: &ReferenceImage,
    around: &[Offset],
) -> Result<ReferenceImage, NoMemory>
    requires { SameShape marker.now mask.now }
    ensures { IfOk result (λ r. r ≡ rebuilt_by method around.now mask.now marker.now) }
{
    if method == 0 {
        return mw_geodesic::reconstruction(alloc, marker, mask, around);
    }
    reconstruction_by_erosion(alloc, marker, mask, around)
}

/// The same of images in arrays.
fn rebuilt_plain(
    alloc: Global,
    method: u32,
    marker: ArrayImage<'_>,
    mask: ArrayImage<'_>,
    around: &[Offset],
) -> Result<Image, NoMemory>
    requires marker { IsArrayImage marker }
    requires mask { IsArrayImage mask }
    requires shape { SameShape (picture_in marker) (picture_in mask) }
    ensures { IfOk result (λ g. g ≡ rebuilt_by method around.now (picture_in mask.entry) (picture_in marker.entry)) }
{
    let marker = plain(alloc, marker)?;
    let mask = plain(alloc, mask)?;
    let made = rebuilt_plainly(alloc, method, &marker, &mask, around)?;
    image_made(alloc, &made)
}

/// The reconstruction of a method. It may want memory (`NoMemory`).
pub(crate) fn rebuilt_under(
    alloc: Global,
    method: u32,
    marker: ArrayImage<'_>,
    mask: ArrayImage<'_>,
    around: &[Offset],
) -> Result<Image, NoMemory>
    requires marker { IsArrayImage marker }
    requires mask { IsArrayImage mask }
    requires shape { SameShape (picture_in marker) (picture_in mask) }
    ensures { IfOk result (λ g. g ≡ rebuilt_by method around.now (picture_in mask.entry) (picture_in marker.entry)) }
{
    match neighbours_in(around) {
        Some(neighbours) => rebuilt_kernel(alloc, method, marker, mask, neighbours),
        None => rebuilt_plain(alloc, method, marker, mask, around),
    }
}
