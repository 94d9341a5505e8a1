//! Rows of words cut to a width.
ghost use Rattle.std.specs.Prelude.{◌≡◌, ℕ, ◌+◌, ◌-◌, ◌*◌, ◌/◌, ◌%◌, ◌<◌, ◌≤◌, ◌^◌, length, vec_len, if◌then◌else◌, nat_lt, IfOk};
ghost use Rattle.mw_pixel_words.specs.Packed.{bit_of, stride_of, IsPacked};

use crate::words::{repeated, stride};
use mw_model::NoMemory;
use std::alloc::Global;

/// The bits past the width of a row become 0; its last word has some of them.
#[inline(always)]
fn trim_row(width: u32, out: &mut [u64])
    requires part { 0 < width % 64 }
    requires room { length out.old ≡ stride_of width }
    ensures { (x : ℕ) → x < 64 * stride_of width → bit_of out.new x ≡ (if nat_lt x width then bit_of out.old x else 0) }
{
    let rest = width % 64;
    let last = (width / 64) as usize;
    out[last] = out[last] & ((1 << rest) - 1);
}

/// The bits past the width of each of `high` rows become 0.
pub(crate) fn trim_rows(width: u32, high: usize, out: &mut [u64])
    requires room { length out.old ≡ high * stride_of width }
    ensures { (x y : ℕ) → x < 64 * stride_of width → y < high → bit_of out.new (y * (64 * stride_of width) + x) ≡ (if nat_lt x width then bit_of out.old (y * (64 * stride_of width) + x) else 0) }
{
    if width % 64 == 0 {
        return;
    }
    let stride = stride(width);
    for y in 0..high {
        let start = y * stride;
        trim_row(width, &mut out[start..start + stride]);
    }
}

/// Copies the words of a row. As few as most tiles have are moved here, since a call takes longer.
#[inline(always)]
fn copy_words(from: &[u64], out: &mut [u64])
    requires { length from.now ≡ length out.old }
    ensures { out.new ≡ from.now }
{
    match out.len() {
        1 => out[0] = from[0],
        2 => out[..2].copy_from_slice(&from[..2]),
        3 => out[..3].copy_from_slice(&from[..3]),
        4 => out[..4].copy_from_slice(&from[..4]),
        _ => out.copy_from_slice(from),
    }
}

/// Copies the first words of each of `high` rows of `wide` words.
fn copy_rows(cells: &[u64], wide: usize, stride: usize, high: usize, out: &mut [u64])
    requires narrow { stride ≤ wide }
    requires words { (y : ℕ) → y < high → y * wide + stride ≤ length cells.now }
    requires room { length out.old ≡ high * stride }
    ensures { (x y : ℕ) → x < 64 * stride → y < high → bit_of out.new (y * (64 * stride) + x) ≡ bit_of cells.now (y * (64 * wide) + x) }
{
    for y in 0..high {
        let from = y * wide;
        let to = y * stride;
        copy_words(&cells[from..from + stride], &mut out[to..to + stride]);
    }
}

/// The first words of each of `high` rows of `wide` words.
fn first_words(
    alloc: Global,
    cells: &[u64],
    wide: usize,
    stride: usize,
    high: usize,
) -> Result<Vec<u64>, NoMemory>
    requires few { high * stride < 2 ^ 64 }
    requires narrow { stride ≤ wide }
    requires words { (y : ℕ) → y < high → y * wide + stride ≤ length cells.now }
    ensures size { IfOk result (λ v. vec_len v ≡ high * stride) }
    ensures bits { IfOk result (λ v. (x y : ℕ) → x < 64 * stride → y < high → bit_of v.items (y * (64 * stride) + x) ≡ bit_of cells.now (y * (64 * wide) + x)) }
{
    if wide == stride {
        return Ok(Vec::from_slice(alloc, &cells[..high * stride])?);
    }
    let mut out = repeated(alloc, high * stride, 0u64)?;
    copy_rows(cells, wide, stride, high, out.as_mut_slice());
    Ok(out)
}

/// The words of the first `width` pixels of each of `high` rows of `wide` words; their other bits are 0.
pub fn trimmed(
    alloc: Global,
    cells: &[u64],
    wide: usize,
    width: u32,
    high: u32,
) -> Result<Vec<u64>, NoMemory>
    requires narrow { stride_of width ≤ wide }
    requires words { (y : ℕ) → y < high → y * wide + stride_of width ≤ length cells.now }
    ensures packed { IfOk result (λ v. IsPacked width high v.items) }
    ensures bits { IfOk result (λ v. (x y : ℕ) → x < width → y < high → bit_of v.items (y * (64 * stride_of width) + x) ≡ bit_of cells.now (y * (64 * wide) + x)) }
{
    let mut out = first_words(alloc, cells, wide, stride(width), high as usize)?;
    trim_rows(width, high as usize, out.as_mut_slice());
    Ok(out)
}
