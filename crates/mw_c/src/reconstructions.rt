//! Reconstructions of images in arrays, by dilation and by erosion.

ghost use Rattle.std.specs.Prelude.{◌≡◌, ◌≢◌, pos, length, None};
ghost use Rattle.mw_model.specs.declared.limits.TheConstants.{LEVEL_LIMIT};
ghost use Rattle.mw_c_arrays.specs.Arrays.{element_in_bytes, grey_in_array, set_in_bytes};
ghost use Rattle.mw_c_arrays.specs.Faults.{element_fault, levels_fault, pixels_fault};
ghost use Rattle.mw_c_calls.specs.Calls.{room_case};
ghost use Rattle.mw_c_geodesic.specs.CallFaults.{frame_case, levels_case, method_case, rebuild_fault};
ghost use Rattle.mw_c_geodesic.specs.Methods.{rebuilt_by};
ghost use Rattle.mw_c_geodesic.specs.Told.{IsGeodesicAnswer};

use mw_c_geodesic::{reconstruct_set, reconstruct_u8, reconstruct_u16};
use std::alloc::Global;

/// The reconstruction of a mask from a marker, of images in levels of one byte: by dilation (0) or by erosion (1).
#[unsafe(no_mangle)]
pub extern "C" fn morphd_reconstruct_u8(
    alloc: Global,
    method: u32,
    marker_width: u32,
    marker_height: u32,
    marker_maxval: u8,
    marker: &[u8],
    mask_width: u32,
    mask_height: u32,
    mask_maxval: u8,
    mask: &[u8],
    element: &[u8],
    element_width: u32,
    element_height: u32,
    element_x: u32,
    element_y: u32,
    out: &mut [u8],
) -> i32
    ensures made { result ≡ pos 0 → out.new ≡ (rebuilt_by method (element_in_bytes element_width element_height element_x element_y element.now) (grey_in_array mask_width mask_height mask_maxval mask.now) (grey_in_array marker_width marker_height marker_maxval marker.now)).samples }
    ensures kept { result ≢ pos 0 → out.new ≡ out.old }
    ensures first { IsGeodesicAnswer (rebuild_fault (method_case method) (levels_fault 1 255 marker_width marker_height marker_maxval marker.now) (levels_fault 1 255 mask_width mask_height mask_maxval mask.now) (frame_case marker_width marker_height mask_width mask_height) (levels_case marker_maxval mask_maxval) (room_case (length out.old) (length mask.now)) (element_fault element_width element_height element_x element_y element.now)) result }
{
    reconstruct_u8(
        alloc,
        method,
        marker_width,
        marker_height,
        marker_maxval,
        marker,
        mask_width,
        mask_height,
        mask_maxval,
        mask,
        element,
        element_width,
        element_height,
        element_x,
        element_y,
        out,
    )
}

/// The reconstruction of a mask from a marker, of images in levels of two bytes: by dilation (0) or by erosion (1).
#[unsafe(no_mangle)]
pub extern "C" fn morphd_reconstruct_u16(
    alloc: Global,
    method: u32,
    marker_width: u32,
    marker_height: u32,
    marker_maxval: u16,
    marker: &[u16],
    mask_width: u32,
    mask_height: u32,
    mask_maxval: u16,
    mask: &[u16],
    element: &[u8],
    element_width: u32,
    element_height: u32,
    element_x: u32,
    element_y: u32,
    out: &mut [u16],
) -> i32
    ensures made { result ≡ pos 0 → out.new ≡ (rebuilt_by method (element_in_bytes element_width element_height element_x element_y element.now) (grey_in_array mask_width mask_height mask_maxval mask.now) (grey_in_array marker_width marker_height marker_maxval marker.now)).samples }
    ensures kept { result ≢ pos 0 → out.new ≡ out.old }
    ensures first { IsGeodesicAnswer (rebuild_fault (method_case method) (levels_fault 256 LEVEL_LIMIT marker_width marker_height marker_maxval marker.now) (levels_fault 256 LEVEL_LIMIT mask_width mask_height mask_maxval mask.now) (frame_case marker_width marker_height mask_width mask_height) (levels_case marker_maxval mask_maxval) (room_case (length out.old) (length mask.now)) (element_fault element_width element_height element_x element_y element.now)) result }
{
    reconstruct_u16(
        alloc,
        method,
        marker_width,
        marker_height,
        marker_maxval,
        marker,
        mask_width,
        mask_height,
        mask_maxval,
        mask,
        element,
        element_width,
        element_height,
        element_x,
        element_y,
        out,
    )
}

/// The reconstruction of a mask from a marker, of sets: by dilation (0) or by erosion (1).
#[unsafe(no_mangle)]
pub extern "C" fn morphd_reconstruct_set(
    alloc: Global,
    method: u32,
    marker_width: u32,
    marker_height: u32,
    marker: &[u8],
    mask_width: u32,
    mask_height: u32,
    mask: &[u8],
    element: &[u8],
    element_width: u32,
    element_height: u32,
    element_x: u32,
    element_y: u32,
    out: &mut [u8],
) -> i32
    ensures made { result ≡ pos 0 → out.new ≡ (rebuilt_by method (element_in_bytes element_width element_height element_x element_y element.now) (set_in_bytes mask_width mask_height mask.now) (set_in_bytes marker_width marker_height marker.now)).samples }
    ensures kept { result ≢ pos 0 → out.new ≡ out.old }
    ensures first { IsGeodesicAnswer (rebuild_fault (method_case method) (pixels_fault marker_width marker_height marker.now) (pixels_fault mask_width mask_height mask.now) (frame_case marker_width marker_height mask_width mask_height) None (room_case (length out.old) (length mask.now)) (element_fault element_width element_height element_x element_y element.now)) result }
{
    reconstruct_set(
        alloc,
        method,
        marker_width,
        marker_height,
        marker,
        mask_width,
        mask_height,
        mask,
        element,
        element_width,
        element_height,
        element_x,
        element_y,
        out,
    )
}
