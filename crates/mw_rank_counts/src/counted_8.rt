//! Counting bytes.
ghost use Rattle.std.specs.Prelude.{◌≡◌, ℕ, ◌+◌, ◌<◌, length, slice_index_or};
ghost use Rattle.mw_rank_counts.specs.Counting.{levels_on, HasPlaces};
ghost use Rattle.mw_rank.specs.Tallies.{count_under};

use super::Counted;
use crate::squeezed::Bytes;
use std::simd::Simd;
use std::simd::prelude::*;

/// How many of the samples at the places, and as many columns on, are not above the sums of the levels and `more`.
#[inline(always)]
fn counts_up_to(samples: &[u8], places: &[usize], levels: Simd<u8, 32>, more: u8) -> Simd<u8, 32>
    requires lanes { length levels ≡ 32 }
    requires inside { HasPlaces samples.now 32 places.now }
    requires few { length places.now < 256 }
    ensures size { length result ≡ 32 }
    ensures counts { (i : ℕ) → i < 32 → slice_index_or result i 0 ≡ count_under (slice_index_or levels i 0 + more + 1) (levels_on (λ s. s) 255 samples.now places.now i) }
{
    let one = Simd::<u8, 32>::splat(1);
    let none = Simd::<u8, 32>::splat(0);
    // no further than to the top of the type
    let room = Simd::<u8, 32>::splat(u8::MAX) - levels;
    let last = levels + room.simd_min(Simd::<u8, 32>::splat(more));
    let mut counts = none;
    for place in places {
        let here = Simd::<u8, 32>::from_slice(&samples[*place..*place + 32]);
        counts = counts + here.simd_le(last).select(one, none);
    }
    counts
}

impl Counted for u8 {
    ghost use Rattle.std.proofs.Common.{arith, refl};

    ghost BITS = { 8 };

    const BITS: u32 = 8;

    ghost few_bits = { Prim.omega arith };

    ghost has_bits = { refl };

    #[inline(always)]
    fn lowest(found: &mut [u8], samples: &[u8], places: &[usize]) -> u8 {
        let mut low = Simd::<u8, 32>::splat(u8::MAX);
        let mut high = Simd::<u8, 32>::splat(0);
        for place in places {
            let here = Simd::<u8, 32>::from_slice(&samples[*place..*place + 32]);
            low = low.simd_min(here);
            high = high.simd_max(here);
        }
        low.copy_to_slice(found);
        (high - low).reduce_or()
    }

    #[inline(always)]
    fn raise(found: &mut [u8], samples: &[u8], places: &[usize], step: u16, n: u16) {
        let less = (step - 1) as u8;
        let old = Simd::<u8, 32>::from_slice(found);
        let next = old + Simd::<u8, 32>::splat(less) + Simd::<u8, 32>::splat(1);
        let counts = counts_up_to(samples, places, old, less);
        counts
            .simd_lt(Simd::<u8, 32>::splat(n as u8))
            .select(next, old)
            .copy_to_slice(found);
    }

    #[inline(always)]
    fn narrow(
        _found: &mut [u8],
        _bytes: &mut Bytes,
        _samples: &[u8],
        _places: &[usize],
        _n: u16,
        bits: u32,
    ) -> u32 {
        bits
    }
}
