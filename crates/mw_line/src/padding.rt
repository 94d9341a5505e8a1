//! A line with neutral samples before and after it, so that each place has all of its neighbours.
ghost use Rattle.std.specs.Prelude.{◌≡◌, ℕ, ◌+◌, ◌*◌, ◌<◌, ◌≤◌, ◌^◌, ◌≤ℤ◌, ◌+ℤ◌, pos, ◌++◌, length, drop, min, replicate, IfOk};
ghost use lib.IntN.{neg_ℤ};
ghost use Rattle.mw_line.specs.Line.{cut_to};
ghost use Rattle.mw_model.specs.Rectangles.{nonnegative, span};

use crate::NoMemory;
use mw_tile::pixel::{Pixel, copies};
use std::alloc::Global;

/// An end of a bar, cut to a line of n samples: from further on than n places no sample is seen.
pub(crate) fn cut_to(n: usize, end: i32) -> i32
    ensures { result ≡ cut_to n end }
{
    let most = n.min(1 << 31) as i64;
    i64::from(end).min(most).max(-most) as i32
}

/// How many places a window has before its own.
pub(crate) fn places_before(a: i32) -> usize
    ensures value { result ≡ nonnegative (neg_ℤ a) }
    ensures small { result ≤ 2 ^ 31 }
{
    if a < 0 { (-i64::from(a)) as usize } else { 0 }
}

/// How many places a window leaves out from its own on.
pub(crate) fn places_skipped(a: i32) -> usize
    ensures { result ≡ nonnegative a }
{
    if a > 0 { a as usize } else { 0 }
}

/// How many places a window has from its own on.
pub(crate) fn places_after(b: i32) -> usize
    ensures value { result ≡ nonnegative (b +ℤ pos 1) }
    ensures small { result ≤ 2 ^ 31 }
{
    if b >= 0 { b as usize + 1 } else { 0 }
}

/// How many places a window has.
pub(crate) fn places(a: i32, b: i32) -> usize
    requires { a ≤ℤ b }
    ensures value { result ≡ span a b }
    ensures positive { 0 < result }
{
    (i64::from(b) - i64::from(a) + 1) as usize
}

/// The samples from `skip` on, with neutral samples before and after them.
pub(crate) fn padded<P: Pixel>(
    alloc: Global,
    src: &[P],
    left: usize,
    skip: usize,
    right: usize,
    neutral: P,
) -> Result<Vec<P>, NoMemory>
    requires { left + (length src.now + right) < 2 ^ 64 }
    ensures { IfOk result (λ v. v.items ≡ replicate left neutral ++ (drop (min skip (length src.now)) src.now ++ replicate right neutral)) }
{
    let mut samples = copies(alloc, left, neutral)?;
    samples.extend_from_slice(&src[skip.min(src.len())..])?;
    samples.resize(samples.len() + right, neutral)?;
    Ok(samples)
}
