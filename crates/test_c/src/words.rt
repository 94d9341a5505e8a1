//! Calls on levels of two bytes.

use crate::called::Called;
use crate::given::{Call, Way};
use mw_c_calls::{
    flat_rows_u16, flat_u16, hit_or_miss_u16, restore_u16, spectrum_u16, threshold_u16,
};
use std::alloc::Global;

fn flat(alloc: Global, call: Call<'_>, f: &[u16], out: &mut [u16]) -> i32 {
    let (b, (columns, rows), (x, y)) = call.element;
    let (operation, k, maxval) = (call.operation, call.k, call.maxval);
    let (width, height) = (call.width, call.height);
    flat_u16(
        alloc, operation, k, width, height, maxval, f, b, columns, rows, x, y, out,
    )
}

fn flat_rows(alloc: Global, call: Call<'_>, f: &[u16], out: &mut [u16]) -> i32 {
    let (b, (columns, rows), (x, y)) = call.element;
    let (operation, k, first, maxval) = (call.operation, call.k, call.first, call.maxval);
    let (width, height) = (call.width, call.height);
    flat_rows_u16(
        alloc, operation, k, first, width, height, maxval, f, b, columns, rows, x, y, out,
    )
}

fn hits(alloc: Global, call: Call<'_>, f: &[u16], out: &mut [u16]) -> i32 {
    let (hit, (hit_columns, hit_rows), (hit_x, hit_y)) = call.element;
    let (miss, (miss_columns, miss_rows), (miss_x, miss_y)) = call.miss;
    hit_or_miss_u16(
        alloc,
        call.width,
        call.height,
        call.maxval,
        f,
        hit,
        hit_columns,
        hit_rows,
        hit_x,
        hit_y,
        miss,
        miss_columns,
        miss_rows,
        miss_x,
        miss_y,
        out,
    )
}

fn threshold(alloc: Global, call: Call<'_>, f: &[u16], out: &mut [u8]) -> i32 {
    threshold_u16(alloc, call.k, call.width, call.height, call.maxval, f, out)
}

fn restored(alloc: Global, call: Call<'_>, f: &[u16], out: &mut [u8]) -> i32 {
    let (b, (columns, rows), (x, y)) = call.element;
    let (width, height, maxval) = (call.width, call.height, call.maxval);
    restore_u16(
        alloc, call.k, width, height, maxval, f, b, columns, rows, x, y, out,
    )
}

fn spectrum(alloc: Global, call: Call<'_>, f: &[u16], out: &mut [u64]) -> i32 {
    let (b, (columns, rows), (x, y)) = call.element;
    let (width, height, maxval) = (call.width, call.height, call.maxval);
    spectrum_u16(
        alloc, call.k, width, height, maxval, f, b, columns, rows, x, y, out,
    )
}

impl Called for u16 {
    fn mark() -> u16 {
        777
    }

    fn image(alloc: Global, call: Call<'_>, f: &[u16], out: &mut [u16]) -> i32 {
        match call.way {
            Way::Flat => flat(alloc, call, f, out),
            Way::Rows => flat_rows(alloc, call, f, out),
            _ => hits(alloc, call, f, out),
        }
    }

    fn set(alloc: Global, call: Call<'_>, f: &[u16], out: &mut [u8]) -> i32 {
        match call.way {
            Way::Threshold => threshold(alloc, call, f, out),
            _ => restored(alloc, call, f, out),
        }
    }

    fn volumes(alloc: Global, call: Call<'_>, f: &[u16], out: &mut [u64]) -> i32 {
        spectrum(alloc, call, f, out)
    }
}
