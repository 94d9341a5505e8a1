//! A search for ranks of 16 bits by searches for ranks of bytes. How far the samples are above the levels at which the
//! search stands is shifted down to bytes, and ranked bit by bit (Ataman, Aatre and Wong 1980). A shift and a limit
//! never turn an order, so the bytes' ranks are the high bits of what is looked for; from there the low bits are found alike.
//! A vector has twice as many bytes, and a pass over all places is wanted for each bit.
ghost use Rattle.std.specs.Prelude.{◌≡◌, ℕ, ◌+◌, ◌*◌, ◌<◌, ◌≤◌, ◌⊎◌, ◌^◌, length, slice_index_or, IfOk};
ghost use Rattle.mw_rank_counts.specs.Counting.{HasPlaces, AreBetween};
ghost use Rattle.mw_rank_counts.specs.Squeezed.{squeezed, BytesHaveRoom};

use crate::search::{clear, seek};
use mw_model::NoMemory;
use mw_rank::pixel::copies;
use std::alloc::Global;
use std::simd::Simd;
use std::simd::prelude::*;

/// Room for the samples at some places as bytes, 32 of each place, where they begin, and for their ranks.
#[derive(Drop)]
pub struct Bytes {
    pub samples: Vec<u8>,
    pub places: Vec<usize>,
    pub ranks: Vec<u8>,
}

/// Room for the bytes of so many places.
pub(crate) fn room_for(alloc: Global, count: usize) -> Result<Bytes, NoMemory>
    requires { count < 256 }
    ensures room { IfOk result (λ b. BytesHaveRoom b) }
{
    let samples = copies(alloc, count * 32, 0u8)?;
    let ranks = copies(alloc, 32, 0u8)?;
    let mut places = Vec::with_capacity(alloc, count)?;
    for q in 0..count {
        places.push(q * 32)?;
    }
    Ok(Bytes {
        samples,
        places,
        ranks,
    })
}

/// How far 32 samples are above 32 levels, shifted down by so many bits, and at most 255.
#[inline(always)]
fn squeezed_lanes(here: Simd<u16, 32>, from: Simd<u16, 32>, rest: u32) -> Simd<u8, 32>
    requires here { length here ≡ 32 }
    requires from { length from ≡ 32 }
    requires small { rest < 16 }
    ensures size { length result ≡ 32 }
    ensures lanes { (i : ℕ) → i < 32 → slice_index_or result i 0 ≡ squeezed rest (slice_index_or from i 0) (slice_index_or here i 0) }
{
    let above = here.simd_max(from) - from;
    let high = above >> Simd::<u16, 32>::splat(rest as u16);
    high.simd_min(Simd::<u16, 32>::splat(255)).cast::<u8>()
}

/// Writes 32 bytes at that place.
#[inline(always)]
fn put_lanes(bytes: &mut [u8], at: usize, lanes: Simd<u8, 32>)
    requires room { at + 32 ≤ length bytes.old }
    requires lanes { length lanes ≡ 32 }
    ensures put { (i : ℕ) → i < 32 → slice_index_or bytes.new (at + i) 0 ≡ slice_index_or lanes i 0 }
    ensures others { (p : ℕ) → (p < at) ⊎ (at + 32 ≤ p) → slice_index_or bytes.new p 0 ≡ slice_index_or bytes.old p 0 }
{
    lanes.copy_to_slice(&mut bytes[at..at + 32]);
}

/// Writes the samples at the places, and as many columns on, one after another as bytes above the levels of the columns.
fn squeeze(bytes: &mut [u8], samples: &[u16], places: &[usize], found: &[u16], rest: u32)
    requires room { length places.now * 32 ≤ length bytes.old }
    requires inside { HasPlaces samples.now 32 places.now }
    requires whole { length found.now ≡ 32 }
    requires small { rest < 16 }
    ensures { (q i : ℕ) → q < length places.now → i < 32 → slice_index_or bytes.new (q * 32 + i) 0 ≡ squeezed rest (slice_index_or found.now i 0) (slice_index_or samples.now (slice_index_or places.now q 0 + i) 0) }
{
    let from = Simd::<u16, 32>::from_slice(found);
    for q in 0..places.len() {
        let place = places[q];
        let here = Simd::<u16, 32>::from_slice(&samples[place..place + 32]);
        put_lanes(bytes, q * 32, squeezed_lanes(here, from, rest));
    }
}

/// Raises each level by its rank among bytes, which stands for so many bits more.
fn lift(found: &mut [u16], ranks: &[u8], rest: u32)
    requires whole { length found.old ≡ 32 }
    requires ranks { length ranks.now ≡ 32 }
    requires small { rest < 16 }
    requires room { (i : ℕ) → i < 32 → slice_index_or found.old i 0 + slice_index_or ranks.now i 0 * 2 ^ rest < 65536 }
    ensures { (i : ℕ) → i < 32 → slice_index_or found.new i 0 ≡ slice_index_or found.old i 0 + slice_index_or ranks.now i 0 * 2 ^ rest }
{
    let shift = Simd::<u16, 32>::splat(rest as u16);
    let more = Simd::<u8, 32>::from_slice(ranks).cast::<u16>() << shift;
    (Simd::<u16, 32>::from_slice(found) + more).copy_to_slice(found);
}

/// Narrows the search for number n by some of its bits, with room for bytes, for the places of these, and for their ranks.
fn narrow_in(
    found: &mut [u16],
    ranks: &mut [u8],
    bytes: &mut [u8],
    steps: &[usize],
    samples: &[u16],
    places: &[usize],
    n: u16,
    bits: u32,
    rest: u32,
)
    requires whole { length found.old ≡ 32 }
    requires ranks { length ranks.old ≡ 32 }
    requires room { length places.now * 32 ≤ length bytes.old }
    requires size { length steps.now ≡ length places.now }
    requires steps { (q : ℕ) → q < length steps.now → slice_index_or steps.now q 0 ≡ q * 32 }
    requires inside { HasPlaces samples.now 32 places.now }
    requires few { length places.now < 256 }
    requires rank { n ≤ length places.now }
    requires some { 1 ≤ bits }
    requires bits { bits ≤ 8 }
    requires rest { bits + rest ≤ 16 }
    requires between { AreBetween (λ s. s) 65535 samples.now places.now n (bits + rest) found.old }
    ensures { AreBetween (λ s. s) 65535 samples.now places.now n rest found.new }
{
    squeeze(bytes, samples, places, found, rest);
    clear(ranks);
    seek(ranks, bytes, steps, n, bits);
    lift(found, ranks, rest);
}

/// Narrows the search for number n by some of its bits.
pub(crate) fn narrow_by_bytes(
    found: &mut [u16],
    bytes: &mut Bytes,
    samples: &[u16],
    places: &[usize],
    n: u16,
    bits: u32,
    rest: u32,
)
    requires whole { length found.old ≡ 32 }
    requires room { BytesHaveRoom bytes.old }
    requires fits { length places.now ≤ length bytes.old.places.items }
    requires inside { HasPlaces samples.now 32 places.now }
    requires few { length places.now < 256 }
    requires rank { n ≤ length places.now }
    requires some { 1 ≤ bits }
    requires bits { bits ≤ 8 }
    requires rest { bits + rest ≤ 16 }
    requires between { AreBetween (λ s. s) 65535 samples.now places.now n (bits + rest) found.old }
    ensures room { BytesHaveRoom bytes.new }
    ensures fits { length bytes.new.places.items ≡ length bytes.old.places.items }
    ensures between { AreBetween (λ s. s) 65535 samples.now places.now n rest found.new }
{
    narrow_in(
        found,
        bytes.ranks.as_mut_slice(),
        bytes.samples.as_mut_slice(),
        &bytes.places[..places.len()],
        samples,
        places,
        n,
        bits,
        rest,
    );
}
