//! The search for a rank by counting, for blocks of columns, after Ataman, Aatre and Wong (1980): the level is found bit by
//! bit from the highest, as it is the one of rank n if fewer than n levels are below it, and n or more below the next.
//! Where levels of samples near one another are close, the search begins at the lowest in each column, with the bits by
//! which the others are above it.
ghost use Rattle.std.specs.Prelude.{◌≡◌, ℕ, ◌+◌, ◌-◌, ◌<◌, ◌≤◌, ◌^◌, length, slice_index_or, OnOk};
ghost use Rattle.mw_model.specs.PlanSteps.{ranked};
ghost use Rattle.mw_rank_counts.specs.Counting.{levels_on, HasPlaces, AllUnder, AreBetween, AreFrom};
ghost use Rattle.mw_rank_counts.specs.Squeezed.{BytesHaveRoom};
ghost use Rattle.mw_rank.specs.Ranks.{GainsRow};

use crate::Counted;
use crate::squeezed::Bytes;
use mw_model::NoMemory;
use mw_rank::pixel::Pixel;
use mw_rank::sample_of;

/// The levels that samples have between them.
#[derive(Clone, Copy)]
pub(crate) struct Extent {
    pub least: u16,
    pub most: u16,
}

/// The greatest level of the samples; where there are none, 0.
fn most_of<P: Pixel>(samples: &[P]) -> u16
    ensures most { AllUnder P.level P.TOP samples.now (result + 1) }
    ensures small { result ≤ P.top_level }
{
    let mut most = 0;
    for sample in samples {
        most = most.max(sample.value());
    }
    most
}

/// The least and the greatest level of the samples; where there are none, the greatest is 0.
pub(crate) fn extent_of<P: Pixel>(samples: &[P]) -> Extent
    ensures most { AllUnder P.level P.TOP samples.now (result.most + 1) }
    ensures small { result.most ≤ P.top_level }
{
    let mut least = u16::MAX;
    let mut most = 0;
    for sample in samples {
        least = least.min(sample.value());
        most = most.max(sample.value());
    }
    Extent { least, most }
}

/// How many bits a level has.
pub(crate) fn bits_of<P: Counted>(level: u16) -> u32
    requires { level ≤ P.top_level }
    ensures within { result ≤ P.BITS }
    ensures small { level < 2 ^ result }
{
    let mut bits = 0;
    while bits < P::BITS && level >> bits > 0 {
        bits += 1;
    }
    bits
}

/// How many bits the levels of the samples have.
pub fn bits_in<P: Counted>(samples: &[P]) -> u32
    ensures within { result ≤ P.BITS }
    ensures small { AllUnder P.level P.TOP samples.now (2 ^ result) }
{
    bits_of::<P>(most_of(samples))
}

/// A rank that is wanted of levels of so many bits, which may be close to one another where they are near.
#[derive(Clone, Copy)]
pub(crate) struct Search {
    pub k: u32,
    pub bits: u32,
    pub are_close: bool,
}

/// Makes all of them the lowest level.
pub(crate) fn clear<P: Pixel>(found: &mut [P])
    ensures { AllUnder P.level P.TOP found.new 1 }
{
    let lowest = sample_of::<P>(0);
    for i in 0..found.len() {
        found[i] = lowest;
    }
}

/// Makes the levels those from which the search begins, for each of 32 columns; says how many bits it has.
fn begin<P: Counted>(found: &mut [P], samples: &[P], places: &[usize], search: Search) -> u32
    requires whole { length found.old ≡ 32 }
    requires inside { HasPlaces samples.now 32 places.now }
    requires within { search.bits ≤ P.BITS }
    requires small { AllUnder P.level P.TOP samples.now (2 ^ search.bits) }
    ensures within { result ≤ P.BITS }
    ensures from { AreFrom P.level P.TOP samples.now places.now (2 ^ result) found.new }
{
    if search.are_close {
        let apart = P::lowest(found, samples, places);
        return bits_of::<P>(apart.value());
    }
    clear(found);
    search.bits
}

/// Ends 32 searches for number n, bit by bit.
pub(crate) fn seek<P: Counted>(found: &mut [P], samples: &[P], places: &[usize], n: u16, bits: u32)
    requires whole { length found.old ≡ 32 }
    requires inside { HasPlaces samples.now 32 places.now }
    requires few { length places.now < 256 }
    requires rank { n ≤ length places.now }
    requires within { bits ≤ P.BITS }
    requires between { AreBetween P.level P.TOP samples.now places.now n bits found.old }
    ensures { AreBetween P.level P.TOP samples.now places.now n 0 found.new }
{
    for bit in (0..bits).rev() {
        P::raise(found, samples, places, 1u16 << bit, n);
    }
}

/// Of the samples at the places, and as many columns on, number k in rising order, for each of 32 columns.
fn find<P: Counted>(
    found: &mut [P],
    bytes: &mut Bytes,
    samples: &[P],
    places: &[usize],
    search: Search,
)
    requires whole { length found.old ≡ 32 }
    requires room { BytesHaveRoom bytes.old }
    requires inside { HasPlaces samples.now 32 places.now }
    requires some { 1 ≤ length places.now }
    requires few { length places.now < 256 }
    requires within { search.bits ≤ P.BITS }
    requires small { AllUnder P.level P.TOP samples.now (2 ^ search.bits) }
    ensures found { (i : ℕ) → i < 32 → P.level (slice_index_or found.new i P.TOP) ≡ ranked search.k (levels_on P.level P.TOP samples.now places.now i) }
    ensures room { BytesHaveRoom bytes.new }
{
    let bits = begin(found, samples, places, search);
    let n = (places.len() as u32).min(search.k).max(1) as u16;
    let left = P::narrow(found, bytes, samples, places, n, bits);
    seek(found, samples, places, n, left);
}

/// Adds the ranks of a block of columns, save some of the first.
fn push_block<P: Counted>(
    out: &mut Vec<P>,
    found: &mut [P],
    bytes: &mut Bytes,
    samples: &[P],
    places: &[usize],
    search: Search,
    skip: usize,
) -> Result<(), NoMemory>
    requires whole { length found.old ≡ 32 }
    requires room { BytesHaveRoom bytes.old }
    requires inside { HasPlaces samples.now 32 places.now }
    requires some { 1 ≤ length places.now }
    requires few { length places.now < 256 }
    requires within { search.bits ≤ P.BITS }
    requires small { AllUnder P.level P.TOP samples.now (2 ^ search.bits) }
    requires part { skip ≤ 32 }
    ensures row { OnOk result (GainsRow P.level (λ i. ranked search.k (levels_on P.level P.TOP samples.now places.now (skip + i))) (32 - skip) out.old.items out.new.items) }
    ensures room { OnOk result (BytesHaveRoom bytes.new) }
{
    find(found, bytes, samples, places, search);
    out.extend_from_slice(&found[skip..])?;
    Ok(())
}

/// Adds the ranks of so many columns. The last block begins early enough to end with them.
pub(crate) fn push_blocks<P: Counted>(
    out: &mut Vec<P>,
    found: &mut [P],
    bytes: &mut Bytes,
    samples: &[P],
    places: &[usize],
    search: Search,
    count: u32,
) -> Result<(), NoMemory>
    requires whole { length found.old ≡ 32 }
    requires room { BytesHaveRoom bytes.old }
    requires wide { 32 ≤ count }
    requires inside { HasPlaces samples.now count places.now }
    requires some { 1 ≤ length places.now }
    requires few { length places.now < 256 }
    requires within { search.bits ≤ P.BITS }
    requires small { AllUnder P.level P.TOP samples.now (2 ^ search.bits) }
    ensures row { OnOk result (GainsRow P.level (λ i. ranked search.k (levels_on P.level P.TOP samples.now places.now i)) count out.old.items out.new.items) }
    ensures room { OnOk result (BytesHaveRoom bytes.new) }
{
    let count = count as usize;
    let mut done = 0;
    while done < count {
        let from = done.min(count - 32);
        let rest = &samples[from..];
        push_block(out, found, bytes, rest, places, search, done - from)?;
        done = from + 32;
    }
    Ok(())
}
