//! What counting needs of a type of samples: one step of the search for a rank, for 32 columns at once.
ghost use Rattle.std.specs.Prelude.{◌≡◌, ℕ, ◌+◌, ◌<◌, ◌≤◌, ◌^◌, length, slice_index_or};
ghost use Rattle.mw_rank_counts.specs.Counting.{levels_on, HasPlaces, AreBetween, AreFrom, raised};
ghost use Rattle.mw_rank_counts.specs.Squeezed.{BytesHaveRoom};

use crate::squeezed::Bytes;
use mw_rank::pixel::Grey;

/// Samples of which a rank can be found by counting. A level is found bit by bit from the highest: a bit is set where
/// fewer than the wanted number of levels are below then.
pub trait Counted: Grey {
    ghost BITS: { ℕ };

    /// The bits of a level.
    const BITS: u32;

    /// Makes each of 32 levels the lowest of those at the places, and as many columns on. No level of a column is farther
    /// above its lowest than the result, which has no more bits than the farthest one needs.
    fn lowest(found: &mut [Self], samples: &[Self], places: &[usize]) -> Self
        requires whole { length found.old ≡ 32 }
        requires inside { HasPlaces samples.now 32 places.now }
        ensures { AreFrom Self.level Self.TOP samples.now places.now (Self.level result + 1) found.new };

    /// Raises each of 32 levels by the step where fewer than n samples are below it then, of those at the places and as
    /// many columns on.
    fn raise(found: &mut [Self], samples: &[Self], places: &[usize], step: u16, n: u16)
        requires whole { length found.old ≡ 32 }
        requires inside { HasPlaces samples.now 32 places.now }
        requires few { length places.now < 256 }
        requires rank { n ≤ length places.now }
        requires some { 1 ≤ step }
        requires small { step ≤ Self.top_level }
        ensures { (i : ℕ) → i < 32 → Self.level (slice_index_or found.new i Self.TOP) ≡ raised step n (levels_on Self.level Self.TOP samples.now places.now i) (Self.level (slice_index_or found.old i Self.TOP)) };

    /// Takes some bits of 32 searches for number n at once, where there is a quicker way than bit by bit and room for it.
    /// Says how many bits are left.
    fn narrow(
        found: &mut [Self],
        bytes: &mut Bytes,
        samples: &[Self],
        places: &[usize],
        n: u16,
        bits: u32,
    ) -> u32
        requires whole { length found.old ≡ 32 }
        requires room { BytesHaveRoom bytes.old }
        requires inside { HasPlaces samples.now 32 places.now }
        requires few { length places.now < 256 }
        requires rank { n ≤ length places.now }
        requires within { bits ≤ BITS }
        requires between { AreBetween Self.level Self.TOP samples.now places.now n bits found.old }
        ensures room { BytesHaveRoom bytes.new }
        ensures fewer { result ≤ bits }
        ensures between { AreBetween Self.level Self.TOP samples.now places.now n result found.new };

    ghost few_bits: { BITS ≤ 16 };

    ghost has_bits: { Self.top_level + 1 ≡ 2 ^ BITS };
}
