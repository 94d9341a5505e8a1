//! Calls on sets.

use crate::given::{Call, Way};
use mw_c_calls::{flat_rows_set, flat_set, hit_or_miss_set, skeleton, spectrum_set};
use std::alloc::Global;

fn flat(alloc: Global, call: Call<'_>, f: &[u8], out: &mut [u8]) -> i32 {
    let (b, (columns, rows), (x, y)) = call.element;
    let (operation, k, width, height) = (call.operation, call.k, call.width, call.height);
    flat_set(
        alloc, operation, k, width, height, f, b, columns, rows, x, y, out,
    )
}

fn flat_rows(alloc: Global, call: Call<'_>, f: &[u8], out: &mut [u8]) -> i32 {
    let (b, (columns, rows), (x, y)) = call.element;
    let (operation, k, first) = (call.operation, call.k, call.first);
    let (width, height) = (call.width, call.height);
    flat_rows_set(
        alloc, operation, k, first, width, height, f, b, columns, rows, x, y, out,
    )
}

fn hits(alloc: Global, call: Call<'_>, f: &[u8], out: &mut [u8]) -> i32 {
    let (hit, (hit_columns, hit_rows), (hit_x, hit_y)) = call.element;
    let (miss, (miss_columns, miss_rows), (miss_x, miss_y)) = call.miss;
    hit_or_miss_set(
        alloc,
        call.width,
        call.height,
        f,
        hit,
        hit_columns,
        hit_rows,
        hit_x,
        hit_y,
        miss,
        miss_columns,
        miss_rows,
        miss_x,
        miss_y,
        out,
    )
}

/// Of flat operators, of their rows, and of hits and misses.
pub(crate) fn image(alloc: Global, call: Call<'_>, f: &[u8], out: &mut [u8]) -> i32 {
    match call.way {
        Way::Flat => flat(alloc, call, f, out),
        Way::Rows => flat_rows(alloc, call, f, out),
        _ => hits(alloc, call, f, out),
    }
}

/// Of a skeleton.
pub(crate) fn marks(alloc: Global, call: Call<'_>, f: &[u8], out: &mut [u8]) -> i32 {
    let (b, (columns, rows), (x, y)) = call.element;
    let (k, width, height) = (call.k, call.width, call.height);
    skeleton(alloc, k, width, height, f, b, columns, rows, x, y, out)
}

pub(crate) fn spectrum(alloc: Global, call: Call<'_>, f: &[u8], out: &mut [u64]) -> i32 {
    let (b, (columns, rows), (x, y)) = call.element;
    let (k, width, height) = (call.k, call.width, call.height);
    spectrum_set(alloc, k, width, height, f, b, columns, rows, x, y, out)
}
