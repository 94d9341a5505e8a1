//! Plain rasters: samples as numbers between white space, pixels as single signs.

ghost use Rattle.std.specs.Prelude.{◌≡◌, ◌≢◌, ◌≤◌, ◌↔◌, ℕ, ◌==◌, nat_lt, if◌then◌else◌, IfOk, IfSome, IsSome, Some, map, vec_capacity};
ghost use Rattle.mw_model.specs.NetpbmGrammar.{IsSample};
ghost use Rattle.mw_netpbm_plain.specs.declared.fault.ReadFault.TheVariants.{Short};
ghost use Rattle.mw_netpbm_plain.specs.Reading.{result_viewed, Gives, fault_alone};
ghost use Rattle.mw_netpbm_plain.specs.PlainSamples.{ones_of, place_in_text, top_of};
ghost use Rattle.mw_netpbm_plain.specs.Short.{IsShort};
ghost use Rattle.mw_netpbm_plain.specs.Plain.{tail_at, plain_at, bit_at, pixel_in_text, apart, level_in_text, sample_in_text};

use crate::fault::ReadFault;
use crate::room::has_room;
use crate::short::short_sample;
use crate::words::{is_white, number, skip};
use mw_pixel::Pixel;
use std::alloc::{AllocError, Global};

#[tactic(auto, unfolding(crate::specs::Plain::tail_at))]
pub(crate) fn tail(bytes: &[u8]) -> Result<(), ReadFault>
    ensures { fault_alone result ≡ fault_alone (tail_at bytes.now) }
{
    match bytes {
        [] => Ok(()),
        [b, ..] if is_white(*b) => Ok(()),
        _ => Err(ReadFault::Trailing),
    }
}

#[tactic(auto, unfolding(crate::specs::Plain::bit_at, crate::specs::Plain::pixel_in_text))]
pub(crate) fn pixel(left: usize, bytes: &[u8]) -> Result<(u16, &[u8]), ReadFault>
    ensures value { result_viewed (λ x. (x.0, x.1.now)) result ≡ pixel_in_text left bytes.now }
    ensures small { IfOk result (λ x. x.0 ≤ 1) }
{
    match skip(bytes) {
        [] => Err(ReadFault::Short),
        [b @ (b'0' | b'1'), after @ ..] => Ok((u16::from(*b - b'0'), after)),
        _ => Err(ReadFault::Sample),
    }
}

/// A sample, however it is written.
#[inline(never)]
#[tactic(auto, unfolding(crate::specs::Plain::level_in_text, crate::specs::Plain::apart, crate::specs::Plain::sample_in_text, crate::specs::Reading::number_in_text))]
fn any_sample(maxval: u16, left: usize, bytes: &[u8]) -> Result<(u16, &[u8]), ReadFault>
    ensures value { result_viewed (λ x. (x.0, x.1.now)) result ≡ sample_in_text maxval left bytes.now }
    ensures small { IfOk result (λ x. x.0 ≤ maxval) }
{
    let bytes = skip(bytes);
    if bytes.is_empty() {
        return Err(ReadFault::Short);
    }
    match number(bytes) {
        Err(_) => Err(ReadFault::Sample),
        Ok((n, after)) => {
            if n > u64::from(maxval) {
                return Err(ReadFault::Sample);
            }
            if left == 0 {
                return Ok((n as u16, after));
            }
            match after {
                [] => Ok((n as u16, after)),
                [b, ..] if is_white(*b) => Ok((n as u16, after)),
                _ => Err(ReadFault::Sample),
            }
        }
    }
}

/// The sample at the front where it is as short as its maxval. The branch is the same for each sample of a raster.
#[inline(always)]
fn likely_sample(maxval: u16, bytes: &[u8]) -> Option<(u32, &[u8])>
    ensures sample { IfSome result (λ x. (left : ℕ) → IsSample left bytes.now x.0 x.1.now) }
    ensures short { IsSome result ↔ IsShort (if nat_lt maxval 1000 then 3 else 5) bytes.now }
{
    if maxval < 1000 {
        short_sample(false, bytes)
    } else {
        short_sample(true, bytes)
    }
}

/// A sample, most often a short one.
#[inline(always)]
fn sample(maxval: u16, left: usize, bytes: &[u8]) -> Result<(u16, &[u8]), ReadFault>
    ensures value { result_viewed (λ x. (x.0, x.1.now)) result ≡ sample_in_text maxval left bytes.now }
    ensures small { IfOk result (λ x. x.0 ≤ maxval) }
{
    match likely_sample(maxval, bytes) {
        Some((n, rest)) if n <= u32::from(maxval) => Ok((n as u16, rest)),
        _ => any_sample(maxval, left, bytes),
    }
}

/// What stands at the places of a plain raster.
#[derive(Clone, Copy)]
pub enum Places {
    /// Pixels, 0 or 1.
    Pixels,
    /// Samples up to a maxval.
    Samples(u16),
}

#[inline(always)]
fn place(places: Places, left: usize, bytes: &[u8]) -> Result<(u16, &[u8]), ReadFault>
    ensures value { result_viewed (λ x. (x.0, x.1.now)) result ≡ place_in_text places left bytes.now }
    ensures small { IfOk result (λ x. x.0 ≤ top_of places) }
{
    match places {
        Places::Pixels => pixel(left, bytes),
        Places::Samples(maxval) => sample(maxval, left, bytes),
    }
}

/// 1 for a 1, else 0.
#[inline(always)]
fn one(s: u16) -> u64
    ensures { result ≡ if s == 1 then 1 else 0 }
{
    if s == 1 { 1 } else { 0 }
}

/// How many places have a 1, or the first fault, without memory. It is inlined, so that each caller has a loop for its
/// own places.
#[inline(always)]
pub(crate) fn count_ones(places: Places, count: usize, bytes: &[u8]) -> Result<u64, ReadFault>
    ensures { result_viewed (λ n. n) result ≡ ones_of (plain_at (place_in_text places) count bytes.now) }
{
    let mut ones = 0;
    let mut left = count;
    let mut rest = bytes;
    'places: while left > 0 {
        left -= 1;
        let (s, after) = place(places, left, rest)?;
        ones += one(s);
        rest = after;
    }
    tail(rest)?;
    Ok(ones)
}

/// What the places hold, or the first fault, in one pass over memory that was asked for ahead of it: as much as they
/// take, and none for a raster that is too short.
#[inline(always)]
fn fill<P: Pixel>(
    alloc: Global,
    places: Places,
    count: usize,
    bytes: &[u8],
) -> Result<Result<Vec<P>, ReadFault>, AllocError>
    requires fits { top_of places ≤ P.top_level }
    requires long { fault_alone (plain_at (place_in_text places) count bytes.now) ≢ Some Short }
    ensures value { IfOk result (λ found. result_viewed (λ v. map P.level v.items) found ≡ plain_at (place_in_text places) count bytes.now) }
    ensures few { IfOk result (λ found. IfOk found (λ v. vec_capacity v ≤ count)) }
{
    let mut out = Vec::with_capacity(alloc, count)?;
    let mut left = count;
    let mut rest = bytes;
    'places: while left > 0 {
        left -= 1;
        match place(places, left, rest) {
            Ok((s, after)) => {
                let Some(p) = P::of(s) else { unreachable!() };
                out.push_reserved(p);
                rest = after;
            }
            Err(fault) => return Ok(Err(fault)),
        }
    }
    if let Err(fault) = tail(rest) {
        return Ok(Err(fault));
    }
    Ok(Ok(out))
}

/// The first fault, without memory.
#[inline(never)]
pub(crate) fn check(places: Places, count: usize, bytes: &[u8]) -> Result<(), ReadFault>
    ensures { fault_alone result ≡ fault_alone (plain_at (place_in_text places) count bytes.now) }
{
    let _ones = count_ones(places, count, bytes)?;
    Ok(())
}

/// What the places hold. A raster that may be too short is checked before memory is asked for; nor is a fault passed over
/// where memory is refused.
#[tactic(auto, using(crate::proofs::Faults::Fails_fault, crate::proofs::Faults::Fails_from))]
#[inline(never)]
pub fn samples<P: Pixel>(
    alloc: Global,
    places: Places,
    count: usize,
    bytes: &[u8],
) -> Result<Vec<P>, ReadFault>
    requires { top_of places ≤ P.top_level }
    ensures { Gives (λ v. map P.level v.items) result (plain_at (place_in_text places) count bytes.now) }
{
    if !has_room(places, count, bytes) {
        check(places, count, bytes)?;
    }
    match fill(alloc, places, count, bytes) {
        Ok(Ok(samples)) => Ok(samples),
        Ok(Err(fault)) => Err(fault),
        Err(_refused) => {
            check(places, count, bytes)?;
            Err(ReadFault::NoMemory)
        }
    }
}
