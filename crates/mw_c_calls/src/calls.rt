//! Calls of C: what is wrong with them is told before anything is made.

ghost use Rattle.std.specs.Prelude.{◌≡◌, ◌+◌, ◌≤◌, length, map, None, IfErr, IfOk};
ghost use Rattle.mw_model.specs.Flat.{hit_or_miss, threshold};
ghost use Rattle.mw_model.specs.Iterates.{restoration, skeleton, spectrum};
ghost use Rattle.mw_model.specs.Refusals.{param_case};
ghost use Rattle.mw_model.specs.declared.limits.TheConstants.{LEVEL_LIMIT, SIZE_LIMIT, TURN_LIMIT};
ghost use Rattle.mw_c_arrays.specs.Arrays.{element_in, set_picture};
ghost use Rattle.mw_c_arrays.specs.Faults.{bitmap_fault, set_fault};
ghost use Rattle.mw_c_arrays.specs.Sources.{IsArrayImage, array_sample_count, picture_in, source_fault};
ghost use Rattle.mw_c_calls.specs.Answers.{IsTold};
ghost use Rattle.mw_c_calls.specs.Calls.{call_fault, flat_asks, flat_of, no_origin_case, operation_case, overlap_case, room_case};
ghost use Rattle.mw_c_calls.specs.Sources.{LevelsStandIn};

use crate::making::{drawn_by, hits_of, measured_by};
use crate::operations::{name, operation_of};
use crate::writing::{write_by, write_threshold};
use mw_c_arrays::{ArrayImage, Bitmap, Code, NoMemory, Set, first_of, when};
use mw_c_direct::{Curve, GranOp, Image, Op};
use mw_c_strips::Sample;
use mw_model::{LEVEL_LIMIT, SIZE_LIMIT, TURN_LIMIT};
use std::alloc::Global;

/// What is wrong with the number of a call.
fn number_fault(first: u32, last: u32, n: u32) -> Option<Code>
    ensures { result ≡ param_case first last n }
{
    when(n < first || last < n, Code::Param)
}

/// What is wrong with the room for so many samples.
fn room_fault(room: usize, count: usize) -> Option<Code>
    ensures { result ≡ room_case room count }
{
    when(room != count, Code::Length)
}

/// The first thing that is wrong with a call: its number, the image, the room for what is made, and the element.
pub(crate) fn refused(
    number: Option<Code>,
    image: Option<Code>,
    room: Option<Code>,
    element: Option<Code>,
) -> Option<Code>
    ensures { result ≡ call_fault number image room element }
{
    first_of(&[number, image, room, element])
}

/// Writes a flat operator.
pub(crate) fn flat<P: Sample>(
    alloc: Global,
    numbers: (u32, u32),
    f: ArrayImage<'_>,
    b: &Bitmap<'_>,
    out: &mut [P],
) -> Result<(), Code>
    requires { IsArrayImage f → P.stands (picture_in f).maxval }
    ensures made { IfOk result (λ _. map P.level out.new ≡ (flat_of numbers.0 numbers.1 (element_in b.now) (picture_in f.entry)).samples) }
    ensures kept { IfErr result (λ _. out.new ≡ out.old) }
    ensures told { IsTold (call_fault (operation_case numbers.0) (source_fault f.entry) (room_case (length out.old) (array_sample_count f.entry)) (bitmap_fault b.now)) (flat_asks numbers.0 numbers.1 (element_in b.now)) result }
{
    let (operation, k) = numbers;
    let number = when(operation >= 8, Code::Param);
    let image = f.fault();
    let room = room_fault(out.len(), f.count());
    if let Some(code) = refused(number, image, room, b.fault()) {
        return Err(code);
    }
    write_by(alloc, &operation_of(operation, k), f, b, out)
}

/// Writes a threshold.
pub(crate) fn upper(alloc: Global, k: u32, f: ArrayImage<'_>, out: &mut [u8]) -> Result<(), Code>
    ensures made { IfOk result (λ _. out.new ≡ (threshold k (picture_in f.entry)).samples) }
    ensures kept { IfErr result (λ _. out.new ≡ out.old) }
    ensures told { IsTold (call_fault (param_case 0 LEVEL_LIMIT k) (source_fault f.entry) (room_case (length out.old) (array_sample_count f.entry)) None) None result }
{
    let number = number_fault(0, LEVEL_LIMIT, k);
    let image = f.fault();
    let room = room_fault(out.len(), f.count());
    if let Some(code) = refused(number, image, room, None) {
        return Err(code);
    }
    match write_threshold(alloc, k, f, out) {
        Ok(()) => Ok(()),
        Err(NoMemory) => Err(Code::Memory),
    }
}

/// Hits and misses, for an array of so many places.
pub(crate) fn hits(
    alloc: Global,
    f: ArrayImage<'_>,
    hit: &Bitmap<'_>,
    miss: &Bitmap<'_>,
    room: usize,
) -> Result<Image, Code>
    ensures value { IfOk result (λ g. g ≡ hit_or_miss (element_in hit.now) (element_in miss.now) (picture_in f.entry)) }
    ensures size { IfOk result (λ g. length g.samples ≡ room) }
    ensures levels { IfOk result (λ g. LevelsStandIn f.entry g.maxval) }
    ensures told { IsTold (call_fault (source_fault f.entry) (room_case room (array_sample_count f.entry)) (bitmap_fault hit.now) (bitmap_fault miss.now)) (overlap_case (element_in hit.now) (element_in miss.now)) result }
{
    let image = f.fault();
    let room = room_fault(room, f.count());
    if let Some(code) = refused(image, room, hit.fault(), miss.fault()) {
        return Err(code);
    }
    hits_of(alloc, f, hit, miss)
}

/// A skeleton, for an array of so many places.
pub(crate) fn marks(
    alloc: Global,
    levels: u32,
    f: Set<'_>,
    b: &Bitmap<'_>,
    room: usize,
) -> Result<Image, Code>
    ensures value { IfOk result (λ g. g ≡ skeleton (element_in b.now) levels (set_picture f.entry)) }
    ensures size { IfOk result (λ g. length g.samples ≡ room) }
    ensures small { IfOk result (λ g. g.maxval ≤ 255) }
    ensures told { IsTold (call_fault (param_case 1 TURN_LIMIT levels) (set_fault f.entry) (room_case room (length f.entry.pixels.now)) (bitmap_fault b.now)) (no_origin_case (element_in b.now)) result }
{
    let number = number_fault(1, TURN_LIMIT, levels);
    let image = f.fault();
    let room = room_fault(room, f.pixels.len());
    if let Some(code) = refused(number, image, room, b.fault()) {
        return Err(code);
    }
    let op = Op::Gran(GranOp::Skeleton(name(), name(), levels));
    drawn_by(alloc, &op, ArrayImage::Pixels(f), b)
}

/// A restoration, for an array of so many places.
pub(crate) fn restored(
    alloc: Global,
    levels: u32,
    f: ArrayImage<'_>,
    b: &Bitmap<'_>,
    room: usize,
) -> Result<Image, Code>
    ensures value { IfOk result (λ g. g ≡ restoration (element_in b.now) levels (picture_in f.entry)) }
    ensures size { IfOk result (λ g. length g.samples ≡ room) }
    ensures small { IfOk result (λ g. g.maxval ≤ 255) }
    ensures told { IsTold (call_fault (param_case 1 TURN_LIMIT levels) (source_fault f.entry) (room_case room (array_sample_count f.entry)) (bitmap_fault b.now)) None result }
{
    let number = number_fault(1, TURN_LIMIT, levels);
    let image = f.fault();
    let room = room_fault(room, f.count());
    if let Some(code) = refused(number, image, room, b.fault()) {
        return Err(code);
    }
    let op = Op::Gran(GranOp::Restore(name(), name(), levels));
    drawn_by(alloc, &op, f, b)
}

/// A spectrum, for an array of so many places.
pub(crate) fn volumes(
    alloc: Global,
    levels: u32,
    f: ArrayImage<'_>,
    b: &Bitmap<'_>,
    room: usize,
) -> Result<Curve, Code>
    ensures value { IfOk result (λ v. v ≡ spectrum (element_in b.now) levels (picture_in f.entry)) }
    ensures size { IfOk result (λ v. length v ≡ room) }
    ensures told { IsTold (call_fault (param_case 1 SIZE_LIMIT levels) (source_fault f.entry) (room_case room (levels + 1)) (bitmap_fault b.now)) None result }
{
    let number = number_fault(1, SIZE_LIMIT, levels);
    let image = f.fault();
    let room = room_fault(room, levels as usize + 1);
    if let Some(code) = refused(number, image, room, b.fault()) {
        return Err(code);
    }
    let op = Op::Gran(GranOp::Spectrum(name(), name(), levels));
    measured_by(alloc, &op, f, b)
}
