//! Calls on levels of one byte.

use crate::called::Called;
use crate::given::{Call, Way, is_set};
use crate::pixels;
use mw_c_calls::{flat_rows_u8, flat_u8, hit_or_miss_u8, restore_u8, spectrum_u8, threshold_u8};
use std::alloc::Global;

fn maxval(call: Call<'_>) -> u8 {
    u8::try_from(call.maxval).unwrap_or(255)
}

fn flat(alloc: Global, call: Call<'_>, f: &[u8], out: &mut [u8]) -> i32 {
    let (b, (columns, rows), (x, y)) = call.element;
    let (operation, k, maxval) = (call.operation, call.k, maxval(call));
    let (width, height) = (call.width, call.height);
    flat_u8(
        alloc, operation, k, width, height, maxval, f, b, columns, rows, x, y, out,
    )
}

fn flat_rows(alloc: Global, call: Call<'_>, f: &[u8], out: &mut [u8]) -> i32 {
    let (b, (columns, rows), (x, y)) = call.element;
    let (operation, k, first, maxval) = (call.operation, call.k, call.first, maxval(call));
    let (width, height) = (call.width, call.height);
    flat_rows_u8(
        alloc, operation, k, first, width, height, maxval, f, b, columns, rows, x, y, out,
    )
}

fn hits(alloc: Global, call: Call<'_>, f: &[u8], out: &mut [u8]) -> i32 {
    let (hit, (hit_columns, hit_rows), (hit_x, hit_y)) = call.element;
    let (miss, (miss_columns, miss_rows), (miss_x, miss_y)) = call.miss;
    let (width, height, maxval) = (call.width, call.height, maxval(call));
    hit_or_miss_u8(
        alloc,
        width,
        height,
        maxval,
        f,
        hit,
        hit_columns,
        hit_rows,
        hit_x,
        hit_y,
        miss,
        miss_columns,
        miss_rows,
        miss_x,
        miss_y,
        out,
    )
}

fn threshold(alloc: Global, call: Call<'_>, f: &[u8], out: &mut [u8]) -> i32 {
    let (width, height, maxval) = (call.width, call.height, maxval(call));
    threshold_u8(alloc, call.k, width, height, maxval, f, out)
}

fn restored(alloc: Global, call: Call<'_>, f: &[u8], out: &mut [u8]) -> i32 {
    let (b, (columns, rows), (x, y)) = call.element;
    let (width, height, maxval) = (call.width, call.height, maxval(call));
    restore_u8(
        alloc, call.k, width, height, maxval, f, b, columns, rows, x, y, out,
    )
}

fn spectrum(alloc: Global, call: Call<'_>, f: &[u8], out: &mut [u64]) -> i32 {
    let (b, (columns, rows), (x, y)) = call.element;
    let (width, height, maxval) = (call.width, call.height, maxval(call));
    spectrum_u8(
        alloc, call.k, width, height, maxval, f, b, columns, rows, x, y, out,
    )
}

impl Called for u8 {
    fn mark() -> u8 {
        77
    }

    fn image(alloc: Global, call: Call<'_>, f: &[u8], out: &mut [u8]) -> i32 {
        if is_set(call.sort) {
            return pixels::image(alloc, call, f, out);
        }
        match call.way {
            Way::Flat => flat(alloc, call, f, out),
            Way::Rows => flat_rows(alloc, call, f, out),
            _ => hits(alloc, call, f, out),
        }
    }

    fn set(alloc: Global, call: Call<'_>, f: &[u8], out: &mut [u8]) -> i32 {
        match call.way {
            Way::Threshold => threshold(alloc, call, f, out),
            Way::Skeleton => pixels::marks(alloc, call, f, out),
            _ => restored(alloc, call, f, out),
        }
    }

    fn volumes(alloc: Global, call: Call<'_>, f: &[u8], out: &mut [u64]) -> i32 {
        if is_set(call.sort) {
            return pixels::spectrum(alloc, call, f, out);
        }
        spectrum(alloc, call, f, out)
    }
}
