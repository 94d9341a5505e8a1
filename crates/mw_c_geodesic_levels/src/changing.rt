//! What is made of one image in levels of grey: filled holes, cleared borders, and extrema.

ghost use Rattle.std.specs.Prelude.{◌≡◌, ◌≤◌, All, length, IfOk};
ghost use Rattle.mw_model.specs.declared.shapes.Kind.TheVariants as kind;
ghost use Rattle.mw_geodesic.specs.Neighbours.{neighbours_of};
ghost use Rattle.mw_geodesic_levels.specs.Pictures.{picture_by};
ghost use Rattle.mw_c_arrays.specs.Arrays.{element_in, grey16_picture, grey8_picture};
ghost use Rattle.mw_c_arrays.specs.Faults.{bitmap_fault};
ghost use Rattle.mw_c_arrays.specs.Sound.{IsElementBitmap, IsGrey16, IsGrey8};
ghost use Rattle.mw_c_arrays.specs.Sources.{IsArrayImage, array_sample_count, picture_in, source_fault};
ghost use Rattle.mw_c_calls.specs.Calls.{call_fault, room_case};
ghost use Rattle.mw_c_geodesic.specs.Changes.{made_alone};
ghost use Rattle.mw_c_geodesic.specs.Told.{IsToldFirst, of_code};
ghost use Rattle.mw_c_geodesic_levels.specs.Changes.{ChangeStandsIn, levels_changed};

use crate::images::{GreyLevel, image_of};
use mw_c_arrays::{ArrayImage, Bitmap, Code, Grey8, Grey16, NoMemory};
use mw_c_geodesic::{
    Change, Refusal, bits, changed_plainly, element, image_made, neighbours_in, plain, refused,
    room_fault,
};
use mw_geodesic::Neighbours;
use mw_geodesic_grey::{
    border_cleared, fill_basins, fill_holes, find_minima, h_maxima, regional_maxima,
};
use mw_model::Offset;
use mw_pixel::{Image, Plane};
use mw_reference::ReferenceImage;
use std::alloc::Global;

/// What is made of an image in levels of grey.
#[derive(Clone, Copy)]
pub enum LevelChange {
    /// What is made of sets too.
    Alone(Change),
    /// So much is cut off its domes.
    DomesCut(u16),
    /// Its basins are filled up by so much.
    BasinsFilled(u16),
    /// The set of its regional maxima.
    Maxima,
    /// The set of its regional minima.
    Minima,
}

/// What the kernels make of a plane under the four or the eight neighbours, of what is made of sets too.
fn alone_near<P: GreyLevel>(
    alloc: Global,
    change: Change,
    image: Plane<P>,
    maxval: u16,
    neighbours: Neighbours,
) -> Result<Plane<P>, NoMemory>
    requires stands { P.stands maxval }
    requires within { All (λ s. P.level s ≤ maxval) image.cells }
    ensures { IfOk result (λ r. picture_by P.level maxval r ≡ made_alone change (neighbours_of neighbours) (picture_by P.level maxval image)) }
{
    match change {
        Change::Filled => fill_holes(alloc, image, maxval, neighbours),
        Change::Cleared => border_cleared(alloc, &image, neighbours),
    }
}

/// What they make of it.
fn changed_near<P: GreyLevel>(
    alloc: Global,
    change: LevelChange,
    image: Plane<P>,
    maxval: u16,
    neighbours: Neighbours,
) -> Result<Image, NoMemory>
    requires stands { P.stands maxval }
    requires within { All (λ s. P.level s ≤ maxval) image.cells }
    ensures { IfOk result (λ g. g ≡ levels_changed change (neighbours_of neighbours) (picture_by P.level maxval image)) }
{
    // for the number of samples
    let _size = image.width();
    match change {
        LevelChange::Alone(alone) => {
            let made = alone_near(alloc, alone, image, maxval, neighbours)?;
            image_of(alloc, made, maxval)
        }
        LevelChange::DomesCut(h) => {
            let cut = h_maxima(alloc, &image, h, neighbours)?;
            image_of(alloc, cut, maxval)
        }
        LevelChange::BasinsFilled(h) => {
            let filled = fill_basins(alloc, image, h, maxval, neighbours)?;
            image_of(alloc, filled, maxval)
        }
        LevelChange::Maxima => bits(alloc, regional_maxima(alloc, &image, neighbours)?),
        LevelChange::Minima => bits(alloc, find_minima(alloc, image, maxval, neighbours)?),
    }
}

/// The same of levels of one byte in an array.
fn changed_bytes(
    alloc: Global,
    change: LevelChange,
    f: Grey8<'_>,
    neighbours: Neighbours,
) -> Result<Image, NoMemory>
    requires { IsGrey8 f }
    ensures { IfOk result (λ g. g ≡ levels_changed change (neighbours_of neighbours) (grey8_picture f.entry)) }
{
    let samples = Vec::from_slice(alloc, f.samples)?;
    let plane = Plane::new(f.width, f.height, samples);
    changed_near(alloc, change, plane, f.maxval as u16, neighbours)
}

/// The same of levels of two bytes in an array.
fn changed_words(
    alloc: Global,
    change: LevelChange,
    f: Grey16<'_>,
    neighbours: Neighbours,
) -> Result<Image, NoMemory>
    requires { IsGrey16 f }
    ensures { IfOk result (λ g. g ≡ levels_changed change (neighbours_of neighbours) (grey16_picture f.entry)) }
{
    let samples = Vec::from_slice(alloc, f.samples)?;
    let plane = Plane::new(f.width, f.height, samples);
    changed_near(alloc, change, plane, f.maxval as u16, neighbours)
}

/// The same of an image in an array.
fn changed_kernel(
    alloc: Global,
    change: LevelChange,
    f: ArrayImage<'_>,
    neighbours: Neighbours,
) -> Result<Image, NoMemory>
    requires image { IsArrayImage f }
    requires grey { (picture_in f).kind ≡ kind.Grey }
    ensures { IfOk result (λ g. g ≡ levels_changed change (neighbours_of neighbours) (picture_in f.entry)) }
{
    match f {
        ArrayImage::Grey8(grey) => changed_bytes(alloc, change, grey, neighbours),
        ArrayImage::Grey16(grey) => changed_words(alloc, change, grey, neighbours),
        ArrayImage::Pixels(_) => unreachable!(),
    }
}

/// What a plain program makes.
fn made_plainly(
    alloc: Global,
    change: LevelChange,
    image: &ReferenceImage,
    around: &[Offset],
) -> Result<ReferenceImage, NoMemory>
    ensures { IfOk result (λ r. r ≡ levels_changed change around.now image.now) }
{
    match change {
        LevelChange::Alone(alone) => changed_plainly(alloc, alone, image, around),
        LevelChange::DomesCut(h) => mw_geodesic::h_maxima(alloc, image, h, around),
        LevelChange::BasinsFilled(h) => mw_geodesic::h_minima(alloc, image, h, around),
        LevelChange::Maxima => mw_geodesic::regional_maxima(alloc, image, around),
        LevelChange::Minima => mw_geodesic::regional_minima(alloc, image, around),
    }
}

/// The same of an image in an array.
fn changed_plain(
    alloc: Global,
    change: LevelChange,
    f: ArrayImage<'_>,
    around: &[Offset],
) -> Result<Image, NoMemory>
    requires { IsArrayImage f }
    ensures { IfOk result (λ g. g ≡ levels_changed change around.now (picture_in f.entry)) }
{
    let image = plain(alloc, f)?;
    let made = made_plainly(alloc, change, &image, around)?;
    image_made(alloc, &made)
}

/// What is made under any element: by the kernels, if it covers what the four or the eight neighbours do.
fn changed_under(
    alloc: Global,
    change: LevelChange,
    f: ArrayImage<'_>,
    around: &[Offset],
) -> Result<Image, NoMemory>
    requires image { IsArrayImage f }
    requires grey { (picture_in f).kind ≡ kind.Grey }
    ensures { IfOk result (λ g. g ≡ levels_changed change around.now (picture_in f.entry)) }
{
    match neighbours_in(around) {
        Some(neighbours) => changed_kernel(alloc, change, f, neighbours),
        None => changed_plain(alloc, change, f, around),
    }
}

/// What is made by the element of a bitmap.
fn changed_by(
    alloc: Global,
    change: LevelChange,
    f: ArrayImage<'_>,
    b: &Bitmap<'_>,
) -> Result<Image, NoMemory>
    requires image { IsArrayImage f }
    requires grey { (picture_in f).kind ≡ kind.Grey }
    requires element { IsElementBitmap b.now }
    ensures { IfOk result (λ g. g ≡ levels_changed change (element_in b.now) (picture_in f.entry)) }
{
    let element = element(alloc, b)?;
    changed_under(alloc, change, f, element.offsets())
}

/// What is made of an image in an array, for an array of so many places.
pub(crate) fn levels_changed(
    alloc: Global,
    change: LevelChange,
    number: Option<Code>,
    f: ArrayImage<'_>,
    b: &Bitmap<'_>,
    room: usize,
) -> Result<Image, Refusal>
    requires { (picture_in f).kind ≡ kind.Grey }
    ensures value { IfOk result (λ g. g ≡ levels_changed change (element_in b.now) (picture_in f.entry)) }
    ensures size { IfOk result (λ g. length g.samples ≡ room) }
    ensures levels { IfOk result (λ g. ChangeStandsIn change f.entry g.maxval) }
    ensures told { IsToldFirst (of_code (call_fault number (source_fault f.entry) (room_case room (array_sample_count f.entry)) (bitmap_fault b.now))) result }
{
    let places = room_fault(room, f.count());
    if let Some(code) = refused(number, f.fault(), places, b.fault()) {
        return Err(Refusal::Of(code));
    }
    match changed_by(alloc, change, f, b) {
        Ok(made) => Ok(made),
        Err(NoMemory) => Err(Refusal::Of(Code::Memory)),
    }
}
