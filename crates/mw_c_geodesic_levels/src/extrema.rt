//! Levels of grey in arrays: domes that are cut off, basins that are filled up, and regional extrema.

ghost use Rattle.std.specs.Prelude.{◌≡◌, ◌≢◌, ℕ, ◌≤◌, pos, length, List, None, IfOk};
ghost use Rattle.mw_model.specs.declared.limits.TheConstants.{LEVEL_LIMIT};
ghost use Rattle.mw_model.specs.declared.offsets.Offset.{Offset};
ghost use Rattle.mw_model.specs.declared.shapes.Kind.TheVariants as kind_of;
ghost use Rattle.mw_model.specs.Pictures.{Picture};
ghost use Rattle.mw_c_arrays.specs.Arrays.{element_in, element_in_bytes, grey_in_array};
ghost use Rattle.mw_c_arrays.specs.Faults.{bitmap_fault, element_fault, levels_fault};
ghost use Rattle.mw_c_arrays.specs.Sources.{array_sample_count, picture_in, source_fault};
ghost use Rattle.mw_c_arrays.specs.declared.sources.ArrayImage.{ArrayImage};
ghost use Rattle.mw_c_calls.specs.Answers.{IsAnswer};
ghost use Rattle.mw_c_calls.specs.Calls.{call_fault, room_case};
ghost use Rattle.mw_c_calls.specs.Sources.{LevelsStandIn};
ghost use Rattle.mw_c_geodesic.specs.Told.{IsToldFirst, of_code};
ghost use Rattle.mw_c_geodesic_levels.specs.Changes.{ChangeStandsIn, h_extrema, levels_changed, regional_extrema};
ghost use Rattle.mw_c_geodesic_levels.specs.Faults.{height_fault, kind_case};

use crate::changing::{LevelChange, levels_changed};
use mw_c_arrays::{ArrayImage, Bitmap, Code, Grey8, Grey16, first_of, when};
use mw_c_geodesic::{Refusal, answer_bytes, answer_words};
use mw_model::LEVEL_LIMIT;
use mw_pixel::Image;
use std::alloc::Global;

/// What is wrong with the number of a kind of extrema.
pub(crate) fn kind_fault(kind: u32) -> Option<Code>
    ensures { result ≡ kind_case kind }
{
    when(kind >= 2, Code::Param)
}

/// What is wrong with the numbers of a kind of extrema and of a height.
fn numbers_fault(kind: u32, h: u32) -> Option<Code>
    ensures { result ≡ height_fault kind h }
{
    let height = when(h < 1 || LEVEL_LIMIT < h, Code::Param);
    first_of(&[kind_fault(kind), height])
}

/// What is made by a height.
fn height_change(kind: u32, h: u16) -> LevelChange
    ensures value { (e : List Offset) (f : Picture) → levels_changed result e f ≡ h_extrema kind e h f }
    ensures stands { (f : ArrayImage) (maxval : ℕ) → ChangeStandsIn result f maxval → LevelsStandIn f maxval }
{
    if kind == 0 {
        LevelChange::DomesCut(h)
    } else {
        LevelChange::BasinsFilled(h)
    }
}

/// The set of which extrema is made.
fn regional_change(kind: u32) -> LevelChange
    ensures value { (e : List Offset) (f : Picture) → levels_changed result e f ≡ regional_extrema kind e f }
    ensures stands { (f : ArrayImage) (maxval : ℕ) → ChangeStandsIn result f maxval → maxval ≤ 255 }
{
    if kind == 0 {
        LevelChange::Maxima
    } else {
        LevelChange::Minima
    }
}

/// An image with domes cut off or basins filled up, for an array of so many places.
fn by_height(
    alloc: Global,
    numbers: (u32, u32),
    f: ArrayImage<'_>,
    b: &Bitmap<'_>,
    room: usize,
) -> Result<Image, Refusal>
    requires { (picture_in f).kind ≡ kind_of.Grey }
    ensures value { IfOk result (λ g. g ≡ h_extrema numbers.0 (element_in b.now) numbers.1 (picture_in f.entry)) }
    ensures size { IfOk result (λ g. length g.samples ≡ room) }
    ensures levels { IfOk result (λ g. LevelsStandIn f.entry g.maxval) }
    ensures told { IsToldFirst (of_code (call_fault (height_fault numbers.0 numbers.1) (source_fault f.entry) (room_case room (array_sample_count f.entry)) (bitmap_fault b.now))) result }
{
    let (kind, h) = numbers;
    if let Some(code) = numbers_fault(kind, h) {
        return Err(Refusal::Of(code));
    }
    let change = height_change(kind, h as u16);
    levels_changed(alloc, change, None, f, b, room)
}

/// The set of regional extrema, for an array of so many places.
fn regional(
    alloc: Global,
    kind: u32,
    f: ArrayImage<'_>,
    b: &Bitmap<'_>,
    room: usize,
) -> Result<Image, Refusal>
    requires { (picture_in f).kind ≡ kind_of.Grey }
    ensures value { IfOk result (λ g. g ≡ regional_extrema kind (element_in b.now) (picture_in f.entry)) }
    ensures size { IfOk result (λ g. length g.samples ≡ room) }
    ensures small { IfOk result (λ g. g.maxval ≤ 255) }
    ensures told { IsToldFirst (of_code (call_fault (kind_case kind) (source_fault f.entry) (room_case room (array_sample_count f.entry)) (bitmap_fault b.now))) result }
{
    let number = kind_fault(kind);
    let change = regional_change(kind);
    levels_changed(alloc, change, number, f, b, room)
}

/// The image with domes cut off or basins filled up by a height, of levels of one byte.
pub fn extrema_h_u8(
    alloc: Global,
    kind: u32,
    h: u32,
    width: u32,
    height: u32,
    maxval: u8,
    samples: &[u8],
    element: &[u8],
    element_width: u32,
    element_height: u32,
    element_x: u32,
    element_y: u32,
    out: &mut [u8],
) -> i32
    ensures made { result ≡ pos 0 → out.new ≡ (h_extrema kind (element_in_bytes element_width element_height element_x element_y element.now) h (grey_in_array width height maxval samples.now)).samples }
    ensures kept { result ≢ pos 0 → out.new ≡ out.old }
    ensures first { IsAnswer (call_fault (height_fault kind h) (levels_fault 1 255 width height maxval samples.now) (room_case (length out.old) (length samples.now)) (element_fault element_width element_height element_x element_y element.now)) None result }
{
    let image = Grey8 {
        samples,
        width,
        height,
        maxval: maxval as u32,
    };
    let element = Bitmap {
        pixels: element,
        width: element_width,
        height: element_height,
        origin_x: element_x,
        origin_y: element_y,
    };
    let source = ArrayImage::Grey8(image);
    let made = by_height(alloc, (kind, h), source, &element, out.len());
    answer_bytes(made, out)
}

/// The set of the regional maxima or minima, of levels of one byte.
pub fn extrema_regional_u8(
    alloc: Global,
    kind: u32,
    width: u32,
    height: u32,
    maxval: u8,
    samples: &[u8],
    element: &[u8],
    element_width: u32,
    element_height: u32,
    element_x: u32,
    element_y: u32,
    out: &mut [u8],
) -> i32
    ensures made { result ≡ pos 0 → out.new ≡ (regional_extrema kind (element_in_bytes element_width element_height element_x element_y element.now) (grey_in_array width height maxval samples.now)).samples }
    ensures kept { result ≢ pos 0 → out.new ≡ out.old }
    ensures first { IsAnswer (call_fault (kind_case kind) (levels_fault 1 255 width height maxval samples.now) (room_case (length out.old) (length samples.now)) (element_fault element_width element_height element_x element_y element.now)) None result }
{
    let image = Grey8 {
        samples,
        width,
        height,
        maxval: maxval as u32,
    };
    let element = Bitmap {
        pixels: element,
        width: element_width,
        height: element_height,
        origin_x: element_x,
        origin_y: element_y,
    };
    let source = ArrayImage::Grey8(image);
    let made = regional(alloc, kind, source, &element, out.len());
    answer_bytes(made, out)
}

/// The image with domes cut off or basins filled up by a height, of levels of two bytes.
pub fn extrema_h_u16(
    alloc: Global,
    kind: u32,
    h: u32,
    width: u32,
    height: u32,
    maxval: u16,
    samples: &[u16],
    element: &[u8],
    element_width: u32,
    element_height: u32,
    element_x: u32,
    element_y: u32,
    out: &mut [u16],
) -> i32
    ensures made { result ≡ pos 0 → out.new ≡ (h_extrema kind (element_in_bytes element_width element_height element_x element_y element.now) h (grey_in_array width height maxval samples.now)).samples }
    ensures kept { result ≢ pos 0 → out.new ≡ out.old }
    ensures first { IsAnswer (call_fault (height_fault kind h) (levels_fault 256 LEVEL_LIMIT width height maxval samples.now) (room_case (length out.old) (length samples.now)) (element_fault element_width element_height element_x element_y element.now)) None result }
{
    let image = Grey16 {
        samples,
        width,
        height,
        maxval: maxval as u32,
    };
    let element = Bitmap {
        pixels: element,
        width: element_width,
        height: element_height,
        origin_x: element_x,
        origin_y: element_y,
    };
    let source = ArrayImage::Grey16(image);
    let made = by_height(alloc, (kind, h), source, &element, out.len());
    answer_words(made, out)
}

/// The set of the regional maxima or minima, of levels of two bytes.
pub fn extrema_regional_u16(
    alloc: Global,
    kind: u32,
    width: u32,
    height: u32,
    maxval: u16,
    samples: &[u16],
    element: &[u8],
    element_width: u32,
    element_height: u32,
    element_x: u32,
    element_y: u32,
    out: &mut [u8],
) -> i32
    ensures made { result ≡ pos 0 → out.new ≡ (regional_extrema kind (element_in_bytes element_width element_height element_x element_y element.now) (grey_in_array width height maxval samples.now)).samples }
    ensures kept { result ≢ pos 0 → out.new ≡ out.old }
    ensures first { IsAnswer (call_fault (kind_case kind) (levels_fault 256 LEVEL_LIMIT width height maxval samples.now) (room_case (length out.old) (length samples.now)) (element_fault element_width element_height element_x element_y element.now)) None result }
{
    let image = Grey16 {
        samples,
        width,
        height,
        maxval: maxval as u32,
    };
    let element = Bitmap {
        pixels: element,
        width: element_width,
        height: element_height,
        origin_x: element_x,
        origin_y: element_y,
    };
    let source = ArrayImage::Grey16(image);
    let made = regional(alloc, kind, source, &element, out.len());
    answer_bytes(made, out)
}
