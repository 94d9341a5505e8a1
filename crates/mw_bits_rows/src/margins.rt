//! Rows of words copied as they stand, with neutral pixels past their width.
ghost use Rattle.std.specs.Prelude.{◌≡◌, ℕ, ◌+◌, ◌*◌, ◌/◌, ◌<◌, ◌≤◌, length, if◌then◌else◌, nat_lt};
ghost use Rattle.mw_line.specs.mw_pixel_words.Packed.{bit_of, stride_of, IsPacked};

use crate::WordExtremum;
use mw_line::words::stride;

/// Makes the bits past the width neutral.
#[inline(always)]
fn fill_margin<E: WordExtremum>(width: u32, row: &mut [u64])
    requires words { length row.old ≡ stride_of width }
    requires clean { (x : ℕ) → width ≤ x → x < 64 * stride_of width → bit_of row.old x ≡ 0 }
    ensures { (x : ℕ) → x < 64 * stride_of width → bit_of row.new x ≡ (if nat_lt x width then bit_of row.old x else E.neutral_of 1) }
{
    let rest = width % 64;
    if rest > 0 {
        let last = (width / 64) as usize;
        row[last] = row[last] | (E::neutral_word() << rest);
    }
}

/// Makes the bits past the width of each row neutral.
fn fill_margins<E: WordExtremum>(width: u32, high: usize, rows: &mut [u64])
    requires { IsPacked width high rows.old }
    ensures { (x y : ℕ) → x < 64 * stride_of width → y < high → bit_of rows.new (y * (64 * stride_of width) + x) ≡ (if nat_lt x width then bit_of rows.old (y * (64 * stride_of width) + x) else E.neutral_of 1) }
{
    let stride = stride(width);
    for y in 0..high {
        let start = y * stride;
        fill_margin::<E>(width, &mut rows[start..start + stride]);
    }
}

/// Copies rows; the bits past the width become neutral.
pub fn copy_rows<E: WordExtremum>(from: &[u64], width: u32, high: usize, out: &mut [u64])
    requires packed { IsPacked width high from.now }
    requires room { length out.old ≡ length from.now }
    ensures { (x y : ℕ) → x < 64 * stride_of width → y < high → bit_of out.new (y * (64 * stride_of width) + x) ≡ (if nat_lt x width then bit_of from.now (y * (64 * stride_of width) + x) else E.neutral_of 1) }
{
    out.copy_from_slice(from);
    fill_margins::<E>(width, high, out);
}
