//! Thresholds of arrays.

ghost use Rattle.std.specs.Prelude.{◌≡◌, ◌≢◌, pos, length, None};
ghost use Rattle.mw_model.specs.Flat.{threshold};
ghost use Rattle.mw_model.specs.Refusals.{param_case};
ghost use Rattle.mw_model.specs.declared.limits.TheConstants.{LEVEL_LIMIT};
ghost use Rattle.mw_c_arrays.specs.Arrays.{grey_in_array};
ghost use Rattle.mw_c_arrays.specs.Faults.{levels_fault};
ghost use Rattle.mw_c_calls.specs.Answers.{IsAnswer};
ghost use Rattle.mw_c_calls.specs.Calls.{call_fault, room_case};

use crate::answers::answer;
use crate::calls::upper;
use mw_c_arrays::{ArrayImage, Grey8, Grey16};
use std::alloc::Global;

/// The set of the places with level `k` or more, of levels of one byte.
pub fn threshold_u8(
    alloc: Global,
    k: u32,
    width: u32,
    height: u32,
    maxval: u8,
    samples: &[u8],
    out: &mut [u8],
) -> i32
    ensures made { result ≡ pos 0 → out.new ≡ (threshold k (grey_in_array width height maxval samples.now)).samples }
    ensures kept { result ≢ pos 0 → out.new ≡ out.old }
    ensures first { IsAnswer (call_fault (param_case 0 LEVEL_LIMIT k) (levels_fault 1 255 width height maxval samples.now) (room_case (length out.old) (length samples.now)) None) None result }
{
    let image = Grey8 {
        samples,
        width,
        height,
        maxval: maxval as u32,
    };
    answer(upper(alloc, k, ArrayImage::Grey8(image), out))
}

/// The set of the places with level `k` or more, of levels of two bytes.
pub fn threshold_u16(
    alloc: Global,
    k: u32,
    width: u32,
    height: u32,
    maxval: u16,
    samples: &[u16],
    out: &mut [u8],
) -> i32
    ensures made { result ≡ pos 0 → out.new ≡ (threshold k (grey_in_array width height maxval samples.now)).samples }
    ensures kept { result ≢ pos 0 → out.new ≡ out.old }
    ensures first { IsAnswer (call_fault (param_case 0 LEVEL_LIMIT k) (levels_fault 256 LEVEL_LIMIT width height maxval samples.now) (room_case (length out.old) (length samples.now)) None) None result }
{
    let image = Grey16 {
        samples,
        width,
        height,
        maxval: maxval as u32,
    };
    answer(upper(alloc, k, ArrayImage::Grey16(image), out))
}
