//! Reconstructions of images that stand in arrays.

ghost use Rattle.std.specs.Prelude.{◌≡◌, length, IfOk};
ghost use Rattle.mw_model.specs.Laws.{SameShape};
ghost use Rattle.mw_c_arrays.specs.Arrays.{element_in};
ghost use Rattle.mw_c_arrays.specs.Faults.{bitmap_fault};
ghost use Rattle.mw_c_arrays.specs.Sound.{IsElementBitmap};
ghost use Rattle.mw_c_arrays.specs.Sources.{IsArrayImage, array_sample_count, picture_in, source_fault};
ghost use Rattle.mw_c_calls.specs.Calls.{room_case};
ghost use Rattle.mw_c_calls.specs.Sources.{LevelsStandIn};
ghost use Rattle.mw_c_geodesic.specs.CallFaults.{frame_case, levels_case, method_case, rebuild_fault};
ghost use Rattle.mw_c_geodesic.specs.Methods.{rebuilt_by};
ghost use Rattle.mw_c_geodesic.specs.Told.{IsToldFirst};

use crate::elements::element;
use crate::faults::room_fault;
use crate::rebuild_faults::{frame_fault, in_order, levels_fault};
use crate::rebuilding::rebuilt_under;
use crate::refusals::Refusal;
use mw_c_arrays::{ArrayImage, Bitmap, Code, NoMemory, first_of, when};
use mw_pixel::Image;
use std::alloc::Global;

/// The reconstruction by the element of a bitmap.
fn rebuilt_with(
    alloc: Global,
    method: u32,
    marker: ArrayImage<'_>,
    mask: ArrayImage<'_>,
    b: &Bitmap<'_>,
) -> Result<Image, NoMemory>
    requires marker { IsArrayImage marker }
    requires mask { IsArrayImage mask }
    requires shape { SameShape (picture_in marker) (picture_in mask) }
    requires element { IsElementBitmap b.now }
    ensures { IfOk result (λ g. g ≡ rebuilt_by method (element_in b.now) (picture_in mask.entry) (picture_in marker.entry)) }
{
    let element = element(alloc, b)?;
    rebuilt_under(alloc, method, marker, mask, element.offsets())
}

/// The reconstruction of a method, for an array of so many places.
pub(crate) fn rebuilt(
    alloc: Global,
    method: u32,
    marker: ArrayImage<'_>,
    mask: ArrayImage<'_>,
    b: &Bitmap<'_>,
    room: usize,
) -> Result<Image, Refusal>
    requires { (picture_in marker).kind ≡ (picture_in mask).kind }
    ensures value { IfOk result (λ g. g ≡ rebuilt_by method (element_in b.now) (picture_in mask.entry) (picture_in marker.entry)) }
    ensures size { IfOk result (λ g. length g.samples ≡ room) }
    ensures levels { IfOk result (λ g. LevelsStandIn mask.entry g.maxval) }
    ensures told { IsToldFirst (rebuild_fault (method_case method) (source_fault marker.entry) (source_fault mask.entry) (frame_case (picture_in marker.entry).width (picture_in marker.entry).height (picture_in mask.entry).width (picture_in mask.entry).height) (levels_case (picture_in marker.entry).maxval (picture_in mask.entry).maxval) (room_case room (array_sample_count mask.entry)) (bitmap_fault b.now)) result }
{
    let number = when(method >= 2, Code::Param);
    let marker_fault = marker.fault();
    let mask_fault = mask.fault();
    let images = first_of(&[number, marker_fault, mask_fault]);
    let frame = frame_fault(marker, mask);
    let levels = levels_fault(marker, mask);
    let places = room_fault(room, mask.count());
    let element_fault = b.fault();
    let rest = first_of(&[places, element_fault]);
    if let Some(refusal) = in_order(images, frame, levels, rest) {
        return Err(refusal);
    }
    match rebuilt_with(alloc, method, marker, mask, b) {
        Ok(made) => Ok(made),
        Err(NoMemory) => Err(Refusal::Of(Code::Memory)),
    }
}
