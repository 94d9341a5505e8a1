//! What is made of one set: filled holes, and cleared borders.

ghost use Rattle.std.specs.Prelude.{◌≡◌, ◌*◌, ◌<◌, ◌≤◌, ◌^◌, length, None, IfOk};
ghost use Rattle.mw_model.specs.Pictures.{IsImage};
ghost use Rattle.mw_pixel.specs.Images.{set_of};
ghost use Rattle.mw_geodesic.specs.Neighbours.{neighbours_of};
ghost use Rattle.mw_c_arrays.specs.Arrays.{element_in, set_picture};
ghost use Rattle.mw_c_arrays.specs.Faults.{bitmap_fault, set_fault};
ghost use Rattle.mw_c_arrays.specs.Sound.{IsElementBitmap};
ghost use Rattle.mw_c_calls.specs.Calls.{call_fault, room_case};
ghost use Rattle.mw_c_geodesic.specs.Changes.{made_alone};
ghost use Rattle.mw_c_geodesic.specs.Told.{IsToldFirst, of_code};

use crate::alike::neighbours_in;
use crate::elements::element;
use crate::faults::{refused, room_fault};
use crate::images::{bits, image_made, plain};
use crate::refusals::Refusal;
use mw_c_arrays::{ArrayImage, Bitmap, Code, NoMemory, Set};
use mw_geodesic::{Neighbours, border_cleared, holes_filled};
use mw_geodesic_kept::{border_cleared_of_set, holes_filled_of_set};
use mw_model::Offset;
use mw_pixel::{Bit, Image, Plane};
use mw_reference::ReferenceImage;
use std::alloc::Global;

/// What is made of an image, whether that is a set or has levels of grey.
#[derive(Clone, Copy)]
pub enum Change {
    /// Its holes are filled.
    Filled,
    /// What hangs together with its border is taken away.
    Cleared,
}

/// What a plain program makes.
pub fn changed_plainly(
    alloc: Global,
    change: Change,
    image: &ReferenceImage,
    around: &[Offset],
) -> Result<ReferenceImage, NoMemory>
    ensures { IfOk result (λ r. r ≡ made_alone change around.now image.now) }
{
    match change {
        Change::Filled => holes_filled(alloc, image, around),
        Change::Cleared => border_cleared(alloc, image, around),
    }
}

/// The same of a set in an array.
fn changed_plain(
    alloc: Global,
    change: Change,
    f: Set<'_>,
    around: &[Offset],
) -> Result<Image, NoMemory>
    requires { IsImage (set_picture f) }
    ensures { IfOk result (λ g. g ≡ made_alone change around.now (set_picture f.entry)) }
{
    let image = plain(alloc, ArrayImage::Pixels(f))?;
    let made = changed_plainly(alloc, change, &image, around)?;
    image_made(alloc, &made)
}

/// What the kernel makes of a set.
fn changed_bits(
    alloc: Global,
    change: Change,
    set: &Plane<Bit>,
    neighbours: Neighbours,
) -> Result<Plane<Bit>, NoMemory>
    requires narrow { set.now.width < 2 ^ 16 }
    requires few { set.now.height * set.now.width < 2 ^ 32 }
    ensures { IfOk result (λ r. set_of r ≡ made_alone change (neighbours_of neighbours) (set_of set.now)) }
{
    match change {
        Change::Filled => holes_filled_of_set(alloc, set, neighbours),
        Change::Cleared => border_cleared_of_set(alloc, set, neighbours),
    }
}

/// The same of a set in an array.
fn changed_near(
    alloc: Global,
    change: Change,
    f: Set<'_>,
    neighbours: Neighbours,
) -> Result<Image, NoMemory>
    requires { IsImage (set_picture f) }
    ensures { IfOk result (λ g. g ≡ made_alone change (neighbours_of neighbours) (set_picture f.entry)) }
{
    let set = f.plane(alloc)?;
    let made = changed_bits(alloc, change, &set, neighbours)?;
    bits(alloc, made)
}

/// What is made of a set. It may want memory (`NoMemory`).
fn changed_under(
    alloc: Global,
    change: Change,
    f: Set<'_>,
    around: &[Offset],
) -> Result<Image, NoMemory>
    requires { IsImage (set_picture f) }
    ensures { IfOk result (λ g. g ≡ made_alone change around.now (set_picture f.entry)) }
{
    match neighbours_in(around) {
        Some(neighbours) => changed_near(alloc, change, f, neighbours),
        None => changed_plain(alloc, change, f, around),
    }
}

/// What is made by the element of a bitmap.
fn changed_by(alloc: Global, change: Change, f: Set<'_>, b: &Bitmap<'_>) -> Result<Image, NoMemory>
    requires image { IsImage (set_picture f) }
    requires element { IsElementBitmap b.now }
    ensures { IfOk result (λ g. g ≡ made_alone change (element_in b.now) (set_picture f.entry)) }
{
    let element = element(alloc, b)?;
    changed_under(alloc, change, f, element.offsets())
}

/// What is made of a set in an array, for an array of so many places.
pub(crate) fn changed(
    alloc: Global,
    change: Change,
    f: Set<'_>,
    b: &Bitmap<'_>,
    room: usize,
) -> Result<Image, Refusal>
    ensures value { IfOk result (λ g. g ≡ made_alone change (element_in b.now) (set_picture f.entry)) }
    ensures size { IfOk result (λ g. length g.samples ≡ room) }
    ensures small { IfOk result (λ g. g.maxval ≤ 255) }
    ensures told { IsToldFirst (of_code (call_fault None (set_fault f.entry) (room_case room (length f.entry.pixels.now)) (bitmap_fault b.now))) result }
{
    let places = room_fault(room, f.pixels.len());
    if let Some(code) = refused(None, f.fault(), places, b.fault()) {
        return Err(Refusal::Of(code));
    }
    match changed_by(alloc, change, f, b) {
        Ok(made) => Ok(made),
        Err(NoMemory) => Err(Refusal::Of(Code::Memory)),
    }
}
