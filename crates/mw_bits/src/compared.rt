//! The sets of `levels` made by vector code: 64 samples are compared at once, and their word is written. Rows of fewer
//! samples lie behind one another, so that the 64 samples from the first of a row on are compared, and the bits of the rows
//! behind are cut off.
ghost use Rattle.std.specs.Prelude.{◌≡◌, ℕ, ◌+◌, ◌-◌, ◌*◌, ◌/◌, ◌%◌, ◌<◌, ◌≤◌, ◌^◌, ◌==◌, length, map, nat_le, slice_index, slice_range, if◌then◌else◌, IfOk};
ghost use Rattle.std.specs.Int.{bit_at};
ghost use Rattle.mw_offset.specs.mw_pixel_words.Packed.{bit_of, stride_of, IsPacked, samples_of};

use crate::held::plane_of;
use crate::levels::{FromLevel, LevelTest, OfLevel};
use mw_model::NoMemory;
use mw_offset::lane::LevelBlocks;
use mw_offset::pixel::{Bit, Grey, Pixel, Plane};
use mw_offset::tile::Window;
use mw_offset::words::{repeated, stride};
use std::alloc::Global;

/// The word of the last samples, which are so many; its other bits are 0. The last 64 samples are compared.
#[inline(always)]
fn last_word<P: LevelBlocks, T: LevelTest>(row: &[P], rest: usize, k: u32) -> u64
    requires enough { 64 ≤ length row.now }
    requires few { (0 < rest) × (rest < 64) }
    ensures { (i : ℕ) → i < 64 → bit_at result i ≡ slice_index (map (λ s. T.is_in k (P.level s)) row.now) (length row.now - rest + i) }
{
    T::of_block(k, &row[row.len() - 64..]) >> (64 - rest)
}

/// Compares a row; bits past its last sample are 0.
fn compare_row<P: LevelBlocks, T: LevelTest>(row: &[P], k: u32, out: &mut [u64])
    requires wide { 64 ≤ length row.now }
    requires room { length out.old ≡ stride_of (length row.now) }
    ensures { (x : ℕ) → x < 64 * length out.old → bit_of out.new x ≡ slice_index (map (λ s. T.is_in k (P.level s)) row.now) x }
{
    let whole = row.len() / 64;
    for i in 0..whole {
        out[i] = T::of_block(k, &row[64 * i..64 * i + 64]);
    }
    let rest = row.len() % 64;
    if rest > 0 {
        out[whole] = last_word::<P, T>(row, rest, k);
    }
}

/// Compares each row of a window of 64 columns or more.
fn compare_wide_rows<P: LevelBlocks + Grey, T: LevelTest>(
    window: &Window<P>,
    k: u32,
    out: &mut [u64],
)
    requires wide { 64 ≤ window.now.place.width }
    requires room { length out.old ≡ window.now.place.height * stride_of window.now.place.width }
    ensures packed { IsPacked window.now.place.width window.now.place.height out.new }
    ensures samples { samples_of window.now.place.width window.now.place.height out.new ≡ map (λ s. T.is_in k (P.level s)) window.now.cells }
{
    let place = window.place();
    let _samples = window.samples();
    let stride = stride(place.width);
    for y in 0..place.height {
        let start = y as usize * stride;
        compare_row::<P, T>(window.row(y), k, &mut out[start..start + stride]);
    }
}

/// The word of the samples from a place on; bits past the last sample are 0.
#[inline(always)]
fn word_from<P: LevelBlocks, T: LevelTest>(samples: &[P], from: usize, k: u32) -> u64
    requires enough { 64 ≤ length samples.now }
    requires within { from < length samples.now }
    ensures { (i : ℕ) → i < 64 → bit_at result i ≡ slice_index (map (λ s. T.is_in k (P.level s)) samples.now) (from + i) }
{
    let rest = samples.len() - from;
    if rest >= 64 {
        T::of_block(k, &samples[from..from + 64])
    } else {
        last_word::<P, T>(samples, rest, k)
    }
}

/// The word of a row of fewer than 64 of the samples, which begins at a place.
#[inline(always)]
fn word_of_row<P: LevelBlocks, T: LevelTest>(samples: &[P], from: usize, width: u32, k: u32) -> u64
    requires enough { 64 ≤ length samples.now }
    requires columns { (0 < width) × (width < 64) }
    requires within { from + width ≤ length samples.now }
    ensures { (i : ℕ) → i < 64 → bit_at result i ≡ slice_index (slice_range (map (λ s. T.is_in k (P.level s)) samples.now) from (from + width)) i }
{
    word_from::<P, T>(samples, from, k) & ((1 << width) - 1)
}

/// Compares rows of fewer than 64 samples, a word each.
fn compare_narrow<P: LevelBlocks, T: LevelTest>(samples: &[P], width: u32, k: u32, out: &mut [u64])
    requires enough { 64 ≤ length samples.now }
    requires columns { (0 < width) × (width < 64) }
    requires within { length out.old * width ≤ length samples.now }
    ensures { (q : ℕ) → q < 64 * length out.old → bit_of out.new q ≡ slice_index (slice_range (map (λ s. T.is_in k (P.level s)) samples.now) (q / 64 * width) (q / 64 * width + width)) (q % 64) }
{
    for y in 0..out.len() {
        out[y] = word_of_row::<P, T>(samples, y * width as usize, width, k);
    }
}

/// The levels of fewer than 64 samples, with others behind them.
fn padded<P: Pixel>(samples: &[P]) -> [u16; 64]
    requires { length samples.now < 64 }
    ensures { (i : ℕ) → i < length samples.now → slice_index result i ≡ slice_index (map P.level samples.now) i }
{
    let mut levels = [0; 64];
    for i in 0..samples.len() {
        levels[i] = samples[i].value();
    }
    levels
}

/// Compares such rows where there are fewer than 64 samples in all.
fn compare_few<P: LevelBlocks, T: LevelTest>(samples: &[P], width: u32, k: u32, out: &mut [u64])
    requires few { length samples.now < 64 }
    requires columns { (0 < width) × (width < 64) }
    requires within { length out.old * width ≤ length samples.now }
    ensures { (q : ℕ) → q < 64 * length out.old → bit_of out.new q ≡ slice_index (slice_range (map (λ s. T.is_in k (P.level s)) samples.now) (q / 64 * width) (q / 64 * width + width)) (q % 64) }
{
    let levels = padded(samples);
    compare_narrow::<u16, T>(&levels, width, k, out);
}

/// Compares each row of a window of fewer than 64 columns.
fn compare_narrow_rows<P: LevelBlocks + Grey, T: LevelTest>(
    window: &Window<P>,
    k: u32,
    out: &mut [u64],
)
    requires narrow { window.now.place.width < 64 }
    requires room { length out.old ≡ window.now.place.height * stride_of window.now.place.width }
    ensures packed { IsPacked window.now.place.width window.now.place.height out.new }
    ensures samples { samples_of window.now.place.width window.now.place.height out.new ≡ map (λ s. T.is_in k (P.level s)) window.now.cells }
{
    let width = window.place().width;
    let samples = window.samples();
    if width == 0 {
        return;
    }
    if samples.len() < 64 {
        compare_few::<P, T>(samples, width, k, out);
    } else {
        compare_narrow::<P, T>(samples, width, k, out);
    }
}

/// Compares each row of the window.
fn compare_rows<P: LevelBlocks + Grey, T: LevelTest>(window: &Window<P>, k: u32, out: &mut [u64])
    requires { length out.old ≡ window.now.place.height * stride_of window.now.place.width }
    ensures packed { IsPacked window.now.place.width window.now.place.height out.new }
    ensures samples { samples_of window.now.place.width window.now.place.height out.new ≡ map (λ s. T.is_in k (P.level s)) window.now.cells }
{
    if window.place().width < 64 {
        compare_narrow_rows::<P, T>(window, k, out);
    } else {
        compare_wide_rows::<P, T>(window, k, out);
    }
}

/// The places of a window whose sample is in the set.
fn compared<P: LevelBlocks + Grey, T: LevelTest>(
    alloc: Global,
    window: &Window<P>,
    k: u32,
) -> Result<Plane<Bit>, NoMemory>
    ensures width { IfOk result (λ p. p.width ≡ window.now.place.width) }
    ensures height { IfOk result (λ p. p.height ≡ window.now.place.height) }
    ensures cells { IfOk result (λ p. p.cells ≡ map (λ s. T.is_in k (P.level s)) window.now.cells) }
{
    let place = window.place();
    let mut words = repeated(alloc, place.height as usize * stride(place.width), 0u64)?;
    compare_rows::<P, T>(window, k, words.as_mut_slice());
    Ok(plane_of(place.width, place.height, words))
}

/// The places of a window with level `k` or more, as `at_least`, for types of samples that are compared 64 at a time. It
/// may want memory (`NoMemory`).
pub fn threshold<P: LevelBlocks + Grey>(
    alloc: Global,
    window: &Window<P>,
    k: u32,
) -> Result<Plane<Bit>, NoMemory>
    ensures width { IfOk result (λ p. p.width ≡ window.now.place.width) }
    ensures height { IfOk result (λ p. p.height ≡ window.now.place.height) }
    ensures cells { IfOk result (λ p. p.cells ≡ map (λ s. if nat_le k (P.level s) then 1 else 0) window.now.cells) }
{
    compared::<P, FromLevel>(alloc, window, k)
}

/// The places of a window with level `v`, as `equal`, for types of samples that are compared 64 at a time. It may want
/// memory (`NoMemory`).
pub fn level_set<P: LevelBlocks + Grey>(
    alloc: Global,
    window: &Window<P>,
    v: u32,
) -> Result<Plane<Bit>, NoMemory>
    ensures width { IfOk result (λ p. p.width ≡ window.now.place.width) }
    ensures height { IfOk result (λ p. p.height ≡ window.now.place.height) }
    ensures cells { IfOk result (λ p. p.cells ≡ map (λ s. if P.level s == v then 1 else 0) window.now.cells) }
{
    compared::<P, OfLevel>(alloc, window, v)
}
