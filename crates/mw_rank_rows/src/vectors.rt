//! Eight counters as one vector.
ghost use Rattle.std.specs.Prelude.{◌≡◌, ◌↔◌, ℕ, ◌+◌, ◌-◌, ◌*◌, ◌%◌, ◌<◌, ◌≤◌, ◌⊎◌, IsTrue, length, min, nat_lt, slice_index_or, cond};

use std::simd::Simd;
use std::simd::prelude::*;

/// The counters of the lanes at that place.
#[inline(always)]
pub(crate) fn lanes_at(counts: &[u16], at: usize) -> Simd<u16, 8>
    requires { at + 8 ≤ length counts.now }
    ensures size { length result ≡ 8 }
    ensures lanes { (j : ℕ) → j < 8 → slice_index_or result j 0 ≡ slice_index_or counts.now (at + j) 0 }
{
    Simd::<u16, 8>::from_slice(&counts[at..at + 8])
}

/// Writes the counters of the lanes at that place.
#[inline(always)]
pub(crate) fn put_lanes(counts: &mut [u16], at: usize, lanes: Simd<u16, 8>)
    requires room { at + 8 ≤ length counts.old }
    requires lanes { length lanes ≡ 8 }
    ensures put { (j : ℕ) → j < 8 → slice_index_or counts.new (at + j) 0 ≡ slice_index_or lanes j 0 }
    ensures others { (p : ℕ) → (p < at) ⊎ (at + 8 ≤ p) → slice_index_or counts.new p 0 ≡ slice_index_or counts.old p 0 }
    ensures size { length counts.new ≡ length counts.old }
{
    lanes.copy_to_slice(&mut counts[at..at + 8]);
}

/// The sum of each lane.
#[inline(always)]
pub(crate) fn plus(a: Simd<u16, 8>, b: Simd<u16, 8>) -> Simd<u16, 8>
    requires first { length a ≡ 8 }
    requires second { length b ≡ 8 }
    ensures size { length result ≡ 8 }
    ensures lanes { (j : ℕ) → j < 8 → slice_index_or a j 0 + slice_index_or b j 0 < 65536 → slice_index_or result j 0 ≡ slice_index_or a j 0 + slice_index_or b j 0 }
{
    a + b
}

/// The difference of each lane.
#[inline(always)]
pub(crate) fn minus(a: Simd<u16, 8>, b: Simd<u16, 8>) -> Simd<u16, 8>
    requires first { length a ≡ 8 }
    requires second { length b ≡ 8 }
    ensures size { length result ≡ 8 }
    ensures lanes { (j : ℕ) → j < 8 → slice_index_or b j 0 ≤ slice_index_or a j 0 → slice_index_or a j 0 < 65536 → slice_index_or result j 0 + slice_index_or b j 0 ≡ slice_index_or a j 0 }
{
    a - b
}

/// The lanes if the test holds, else none.
#[inline(always)]
pub(crate) fn lanes_if(test: bool, lanes: Simd<u16, 8>) -> Simd<u16, 8>
    requires { length lanes ≡ 8 }
    ensures size { length result ≡ 8 }
    ensures lanes { (j : ℕ) → j < 8 → slice_index_or lanes j 0 < 65536 → slice_index_or result j 0 ≡ slice_index_or lanes j 0 * cond test 1 0 }
{
    lanes * Simd::<u16, 8>::splat(u16::from(test))
}

/// The least of each lane and n.
#[inline(always)]
pub(crate) fn at_most(a: Simd<u16, 8>, n: u16) -> Simd<u16, 8>
    requires { length a ≡ 8 }
    ensures size { length result ≡ 8 }
    ensures lanes { (j : ℕ) → j < 8 → slice_index_or result j 0 ≡ min n (slice_index_or a j 0) }
{
    a.simd_min(Simd::<u16, 8>::splat(n))
}

/// One more in the lanes that are below those of n.
#[inline(always)]
pub(crate) fn one_more_below(
    levels: Simd<u16, 8>,
    sums: Simd<u16, 8>,
    n: Simd<u16, 8>,
) -> Simd<u16, 8>
    requires levels { length levels ≡ 8 }
    requires sums { length sums ≡ 8 }
    requires n { length n ≡ 8 }
    ensures size { length result ≡ 8 }
    ensures lanes { (j : ℕ) → j < 8 → slice_index_or levels j 0 + 1 < 65536 → slice_index_or result j 0 ≡ slice_index_or levels j 0 + cond (nat_lt (slice_index_or sums j 0) (slice_index_or n j 0)) 1 0 }
{
    let one = Simd::<u16, 8>::splat(1);
    let none = Simd::<u16, 8>::splat(0);
    plus(levels, sums.simd_lt(n).select(one, none))
}

/// Whether each lane is below the other's.
#[inline(always)]
pub(crate) fn all_less(a: Simd<u16, 8>, b: Simd<u16, 8>) -> bool
    requires first { length a ≡ 8 }
    requires second { length b ≡ 8 }
    ensures { IsTrue result ↔ ((j : ℕ) → j < 8 → slice_index_or a j 0 < slice_index_or b j 0) }
{
    a.simd_lt(b).all()
}

/// Whether each lane is not below the other's.
#[inline(always)]
pub(crate) fn none_less(a: Simd<u16, 8>, b: Simd<u16, 8>) -> bool
    requires first { length a ≡ 8 }
    requires second { length b ≡ 8 }
    ensures { IsTrue result ↔ ((j : ℕ) → j < 8 → slice_index_or b j 0 ≤ slice_index_or a j 0) }
{
    b.simd_le(a).all()
}
