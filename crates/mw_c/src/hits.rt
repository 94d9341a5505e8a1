//! Hits and misses of two elements on arrays.

ghost use Rattle.std.specs.Prelude.{◌≡◌, ◌≢◌, pos, length};
ghost use Rattle.mw_model.specs.Flat.{hit_or_miss};
ghost use Rattle.mw_model.specs.declared.limits.TheConstants.{LEVEL_LIMIT};
ghost use Rattle.mw_c_arrays.specs.Arrays.{element_in_bytes, grey_in_array, set_in_bytes};
ghost use Rattle.mw_c_arrays.specs.Faults.{levels_fault, pixels_fault};
ghost use Rattle.mw_c_calls.specs.CallAnswers.{IsHitsAnswer};
ghost use Rattle.mw_c_calls.specs.Calls.{room_case};

use mw_c_calls::{hit_or_miss_set, hit_or_miss_u8, hit_or_miss_u16};
use std::alloc::Global;

/// The erosion by one element less the dilation by the other, of levels of one byte.
#[unsafe(no_mangle)]
pub extern "C" fn morphd_hit_or_miss_u8(
    alloc: Global,
    width: u32,
    height: u32,
    maxval: u8,
    samples: &[u8],
    hit: &[u8],
    hit_width: u32,
    hit_height: u32,
    hit_x: u32,
    hit_y: u32,
    miss: &[u8],
    miss_width: u32,
    miss_height: u32,
    miss_x: u32,
    miss_y: u32,
    out: &mut [u8],
) -> i32
    ensures made { result ≡ pos 0 → out.new ≡ (hit_or_miss (element_in_bytes hit_width hit_height hit_x hit_y hit.now) (element_in_bytes miss_width miss_height miss_x miss_y miss.now) (grey_in_array width height maxval samples.now)).samples }
    ensures kept { result ≢ pos 0 → out.new ≡ out.old }
    ensures first { IsHitsAnswer (levels_fault 1 255 width height maxval samples.now) (room_case (length out.old) (length samples.now)) hit_width hit_height hit_x hit_y hit.now miss_width miss_height miss_x miss_y miss.now result }
{
    hit_or_miss_u8(
        alloc,
        width,
        height,
        maxval,
        samples,
        hit,
        hit_width,
        hit_height,
        hit_x,
        hit_y,
        miss,
        miss_width,
        miss_height,
        miss_x,
        miss_y,
        out,
    )
}

/// The erosion by one element less the dilation by the other, of levels of two bytes.
#[unsafe(no_mangle)]
pub extern "C" fn morphd_hit_or_miss_u16(
    alloc: Global,
    width: u32,
    height: u32,
    maxval: u16,
    samples: &[u16],
    hit: &[u8],
    hit_width: u32,
    hit_height: u32,
    hit_x: u32,
    hit_y: u32,
    miss: &[u8],
    miss_width: u32,
    miss_height: u32,
    miss_x: u32,
    miss_y: u32,
    out: &mut [u16],
) -> i32
    ensures made { result ≡ pos 0 → out.new ≡ (hit_or_miss (element_in_bytes hit_width hit_height hit_x hit_y hit.now) (element_in_bytes miss_width miss_height miss_x miss_y miss.now) (grey_in_array width height maxval samples.now)).samples }
    ensures kept { result ≢ pos 0 → out.new ≡ out.old }
    ensures first { IsHitsAnswer (levels_fault 256 LEVEL_LIMIT width height maxval samples.now) (room_case (length out.old) (length samples.now)) hit_width hit_height hit_x hit_y hit.now miss_width miss_height miss_x miss_y miss.now result }
{
    hit_or_miss_u16(
        alloc,
        width,
        height,
        maxval,
        samples,
        hit,
        hit_width,
        hit_height,
        hit_x,
        hit_y,
        miss,
        miss_width,
        miss_height,
        miss_x,
        miss_y,
        out,
    )
}

/// The erosion by one element less the dilation by the other, of a set, whose pixels are made 1 and the others 0.
#[unsafe(no_mangle)]
pub extern "C" fn morphd_hit_or_miss_set(
    alloc: Global,
    width: u32,
    height: u32,
    pixels: &[u8],
    hit: &[u8],
    hit_width: u32,
    hit_height: u32,
    hit_x: u32,
    hit_y: u32,
    miss: &[u8],
    miss_width: u32,
    miss_height: u32,
    miss_x: u32,
    miss_y: u32,
    out: &mut [u8],
) -> i32
    ensures made { result ≡ pos 0 → out.new ≡ (hit_or_miss (element_in_bytes hit_width hit_height hit_x hit_y hit.now) (element_in_bytes miss_width miss_height miss_x miss_y miss.now) (set_in_bytes width height pixels.now)).samples }
    ensures kept { result ≢ pos 0 → out.new ≡ out.old }
    ensures first { IsHitsAnswer (pixels_fault width height pixels.now) (room_case (length out.old) (length pixels.now)) hit_width hit_height hit_x hit_y hit.now miss_width miss_height miss_x miss_y miss.now result }
{
    hit_or_miss_set(
        alloc,
        width,
        height,
        pixels,
        hit,
        hit_width,
        hit_height,
        hit_x,
        hit_y,
        miss,
        miss_width,
        miss_height,
        miss_x,
        miss_y,
        out,
    )
}
