//! Levels of grey in arrays: filled holes, cleared borders, domes that are cut off, basins that are filled up, and regional
//! extrema.

ghost use Rattle.std.specs.Prelude.{◌≡◌, ◌≢◌, pos, length, None};
ghost use Rattle.mw_model.specs.declared.limits.TheConstants.{LEVEL_LIMIT};
ghost use Rattle.mw_geodesic.specs.Reconstructions.{border_cleared, holes_filled};
ghost use Rattle.mw_c_arrays.specs.Arrays.{element_in_bytes, grey_in_array};
ghost use Rattle.mw_c_arrays.specs.Faults.{element_fault, levels_fault};
ghost use Rattle.mw_c_calls.specs.Answers.{IsAnswer};
ghost use Rattle.mw_c_calls.specs.Calls.{call_fault, room_case};
ghost use Rattle.mw_c_geodesic_levels.specs.Changes.{h_extrema, regional_extrema};
ghost use Rattle.mw_c_geodesic_levels.specs.Faults.{height_fault, kind_case};

use mw_c_geodesic_levels::{
    clear_border_u8, clear_border_u16, extrema_h_u8, extrema_h_u16, extrema_regional_u8,
    extrema_regional_u16, fill_u8, fill_u16,
};
use std::alloc::Global;

/// The image with its holes filled, of levels of one byte.
#[unsafe(no_mangle)]
pub extern "C" fn morphd_fill_u8(
    alloc: Global,
    width: u32,
    height: u32,
    maxval: u8,
    samples: &[u8],
    element: &[u8],
    element_width: u32,
    element_height: u32,
    element_x: u32,
    element_y: u32,
    out: &mut [u8],
) -> i32
    ensures made { result ≡ pos 0 → out.new ≡ (holes_filled (element_in_bytes element_width element_height element_x element_y element.now) (grey_in_array width height maxval samples.now)).samples }
    ensures kept { result ≢ pos 0 → out.new ≡ out.old }
    ensures first { IsAnswer (call_fault None (levels_fault 1 255 width height maxval samples.now) (room_case (length out.old) (length samples.now)) (element_fault element_width element_height element_x element_y element.now)) None result }
{
    fill_u8(
        alloc,
        width,
        height,
        maxval,
        samples,
        element,
        element_width,
        element_height,
        element_x,
        element_y,
        out,
    )
}

/// The image with its holes filled, of levels of two bytes.
#[unsafe(no_mangle)]
pub extern "C" fn morphd_fill_u16(
    alloc: Global,
    width: u32,
    height: u32,
    maxval: u16,
    samples: &[u16],
    element: &[u8],
    element_width: u32,
    element_height: u32,
    element_x: u32,
    element_y: u32,
    out: &mut [u16],
) -> i32
    ensures made { result ≡ pos 0 → out.new ≡ (holes_filled (element_in_bytes element_width element_height element_x element_y element.now) (grey_in_array width height maxval samples.now)).samples }
    ensures kept { result ≢ pos 0 → out.new ≡ out.old }
    ensures first { IsAnswer (call_fault None (levels_fault 256 LEVEL_LIMIT width height maxval samples.now) (room_case (length out.old) (length samples.now)) (element_fault element_width element_height element_x element_y element.now)) None result }
{
    fill_u16(
        alloc,
        width,
        height,
        maxval,
        samples,
        element,
        element_width,
        element_height,
        element_x,
        element_y,
        out,
    )
}

/// The image less what is reconstructed from its border, of levels of one byte.
#[unsafe(no_mangle)]
pub extern "C" fn morphd_clear_border_u8(
    alloc: Global,
    width: u32,
    height: u32,
    maxval: u8,
    samples: &[u8],
    element: &[u8],
    element_width: u32,
    element_height: u32,
    element_x: u32,
    element_y: u32,
    out: &mut [u8],
) -> i32
    ensures made { result ≡ pos 0 → out.new ≡ (border_cleared (element_in_bytes element_width element_height element_x element_y element.now) (grey_in_array width height maxval samples.now)).samples }
    ensures kept { result ≢ pos 0 → out.new ≡ out.old }
    ensures first { IsAnswer (call_fault None (levels_fault 1 255 width height maxval samples.now) (room_case (length out.old) (length samples.now)) (element_fault element_width element_height element_x element_y element.now)) None result }
{
    clear_border_u8(
        alloc,
        width,
        height,
        maxval,
        samples,
        element,
        element_width,
        element_height,
        element_x,
        element_y,
        out,
    )
}

/// The image less what is reconstructed from its border, of levels of two bytes.
#[unsafe(no_mangle)]
pub extern "C" fn morphd_clear_border_u16(
    alloc: Global,
    width: u32,
    height: u32,
    maxval: u16,
    samples: &[u16],
    element: &[u8],
    element_width: u32,
    element_height: u32,
    element_x: u32,
    element_y: u32,
    out: &mut [u16],
) -> i32
    ensures made { result ≡ pos 0 → out.new ≡ (border_cleared (element_in_bytes element_width element_height element_x element_y element.now) (grey_in_array width height maxval samples.now)).samples }
    ensures kept { result ≢ pos 0 → out.new ≡ out.old }
    ensures first { IsAnswer (call_fault None (levels_fault 256 LEVEL_LIMIT width height maxval samples.now) (room_case (length out.old) (length samples.now)) (element_fault element_width element_height element_x element_y element.now)) None result }
{
    clear_border_u16(
        alloc,
        width,
        height,
        maxval,
        samples,
        element,
        element_width,
        element_height,
        element_x,
        element_y,
        out,
    )
}

/// The image with domes cut off or basins filled up by a height, of levels of one byte.
#[unsafe(no_mangle)]
pub extern "C" fn morphd_extrema_h_u8(
    alloc: Global,
    kind: u32,
    h: u32,
    width: u32,
    height: u32,
    maxval: u8,
    samples: &[u8],
    element: &[u8],
    element_width: u32,
    element_height: u32,
    element_x: u32,
    element_y: u32,
    out: &mut [u8],
) -> i32
    ensures made { result ≡ pos 0 → out.new ≡ (h_extrema kind (element_in_bytes element_width element_height element_x element_y element.now) h (grey_in_array width height maxval samples.now)).samples }
    ensures kept { result ≢ pos 0 → out.new ≡ out.old }
    ensures first { IsAnswer (call_fault (height_fault kind h) (levels_fault 1 255 width height maxval samples.now) (room_case (length out.old) (length samples.now)) (element_fault element_width element_height element_x element_y element.now)) None result }
{
    extrema_h_u8(
        alloc,
        kind,
        h,
        width,
        height,
        maxval,
        samples,
        element,
        element_width,
        element_height,
        element_x,
        element_y,
        out,
    )
}

/// The set of the regional maxima or minima, of levels of one byte.
#[unsafe(no_mangle)]
pub extern "C" fn morphd_extrema_regional_u8(
    alloc: Global,
    kind: u32,
    width: u32,
    height: u32,
    maxval: u8,
    samples: &[u8],
    element: &[u8],
    element_width: u32,
    element_height: u32,
    element_x: u32,
    element_y: u32,
    out: &mut [u8],
) -> i32
    ensures made { result ≡ pos 0 → out.new ≡ (regional_extrema kind (element_in_bytes element_width element_height element_x element_y element.now) (grey_in_array width height maxval samples.now)).samples }
    ensures kept { result ≢ pos 0 → out.new ≡ out.old }
    ensures first { IsAnswer (call_fault (kind_case kind) (levels_fault 1 255 width height maxval samples.now) (room_case (length out.old) (length samples.now)) (element_fault element_width element_height element_x element_y element.now)) None result }
{
    extrema_regional_u8(
        alloc,
        kind,
        width,
        height,
        maxval,
        samples,
        element,
        element_width,
        element_height,
        element_x,
        element_y,
        out,
    )
}

/// The image with domes cut off or basins filled up by a height, of levels of two bytes.
#[unsafe(no_mangle)]
pub extern "C" fn morphd_extrema_h_u16(
    alloc: Global,
    kind: u32,
    h: u32,
    width: u32,
    height: u32,
    maxval: u16,
    samples: &[u16],
    element: &[u8],
    element_width: u32,
    element_height: u32,
    element_x: u32,
    element_y: u32,
    out: &mut [u16],
) -> i32
    ensures made { result ≡ pos 0 → out.new ≡ (h_extrema kind (element_in_bytes element_width element_height element_x element_y element.now) h (grey_in_array width height maxval samples.now)).samples }
    ensures kept { result ≢ pos 0 → out.new ≡ out.old }
    ensures first { IsAnswer (call_fault (height_fault kind h) (levels_fault 256 LEVEL_LIMIT width height maxval samples.now) (room_case (length out.old) (length samples.now)) (element_fault element_width element_height element_x element_y element.now)) None result }
{
    extrema_h_u16(
        alloc,
        kind,
        h,
        width,
        height,
        maxval,
        samples,
        element,
        element_width,
        element_height,
        element_x,
        element_y,
        out,
    )
}

/// The set of the regional maxima or minima, of levels of two bytes.
#[unsafe(no_mangle)]
pub extern "C" fn morphd_extrema_regional_u16(
    alloc: Global,
    kind: u32,
    width: u32,
    height: u32,
    maxval: u16,
    samples: &[u16],
    element: &[u8],
    element_width: u32,
    element_height: u32,
    element_x: u32,
    element_y: u32,
    out: &mut [u8],
) -> i32
    ensures made { result ≡ pos 0 → out.new ≡ (regional_extrema kind (element_in_bytes element_width element_height element_x element_y element.now) (grey_in_array width height maxval samples.now)).samples }
    ensures kept { result ≢ pos 0 → out.new ≡ out.old }
    ensures first { IsAnswer (call_fault (kind_case kind) (levels_fault 256 LEVEL_LIMIT width height maxval samples.now) (room_case (length out.old) (length samples.now)) (element_fault element_width element_height element_x element_y element.now)) None result }
{
    extrema_regional_u16(
        alloc,
        kind,
        width,
        height,
        maxval,
        samples,
        element,
        element_width,
        element_height,
        element_x,
        element_y,
        out,
    )
}
