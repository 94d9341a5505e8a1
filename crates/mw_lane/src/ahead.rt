//! A row merged with itself, shifted: the step by which extrema of runs are doubled.
ghost use Rattle.std.specs.Prelude.{◌≡◌, ℕ, ◌+◌, ◌*◌, ◌<◌, ◌≤◌, length, slice_index_or, slice_range};

use crate::combine_rows;
use mw_pixel::{Extremum, Pixel};

/// 64 samples from that place on.
#[inline(always)]
fn block_at<P: Pixel>(row: &[P], at: usize) -> [P; 64]
    requires { at + 64 ≤ length row.now }
    ensures { result ≡ slice_range row.now at (at + 64) }
{
    match <[P; 64]>::try_from(&row[at..at + 64]) {
        Ok(block) => block,
        Err(_) => unreachable!(),
    }
}

/// The extremum of each of 64 samples and the one `shift` further on. The two blocks may overlap.
#[inline(always)]
fn block_ahead<P: Pixel, E: Extremum<P>>(row: &mut [P], at: usize, shift: usize)
    requires { at + shift + 64 ≤ length row.old }
    ensures below { (p : ℕ) (d : P) → p < at → slice_index_or row.new p d ≡ slice_index_or row.old p d }
    ensures within { (p : ℕ) (d : P) → at ≤ p → p < at + 64 → slice_index_or row.new p d ≡ E.merge (slice_index_or row.old p d) (slice_index_or row.old (p + shift) d) }
    ensures above { (p : ℕ) (d : P) → at + 64 ≤ p → slice_index_or row.new p d ≡ slice_index_or row.old p d }
{
    let ahead = block_at(row, at + shift);
    E::combine_block(&mut row[at..at + 64], &ahead);
}

/// The extremum of each of m samples and the one `shift` further on, where the two parts lie apart.
#[inline(always)]
fn part_ahead<P: Pixel, E: Extremum<P>>(row: &mut [P], at: usize, shift: usize, m: usize)
    requires room { at + shift + m ≤ length row.old }
    requires apart { m ≤ shift }
    ensures below { (p : ℕ) (d : P) → p < at → slice_index_or row.new p d ≡ slice_index_or row.old p d }
    ensures within { (p : ℕ) (d : P) → at ≤ p → p < at + m → slice_index_or row.new p d ≡ E.merge (slice_index_or row.old p d) (slice_index_or row.old (p + shift) d) }
    ensures above { (p : ℕ) (d : P) → at + m ≤ p → slice_index_or row.new p d ≡ slice_index_or row.old p d }
{
    let (front, back) = row.split_at_mut(at + shift);
    combine_rows::<P, E>(&mut front[at..at + m], &back[..m]);
}

/// Merges one sample after another.
fn few_ahead<P: Pixel, E: Extremum<P>>(row: &mut [P], shift: usize, n: usize)
    requires { shift + n ≤ length row.old }
    ensures within { (p : ℕ) (d : P) → p < n → slice_index_or row.new p d ≡ E.merge (slice_index_or row.old p d) (slice_index_or row.old (p + shift) d) }
    ensures past { (p : ℕ) (d : P) → n ≤ p → slice_index_or row.new p d ≡ slice_index_or row.old p d }
{
    let mut at = 0usize;
    'by_one: while at < n {
        row[at] = E::combine(row[at], row[at + shift]);
        at += 1;
    }
}

/// Merges one block after another. What lies ahead of a block, its own samples too, is read before it is written, so that any
/// shift will do.
#[inline(always)]
fn blocks_ahead<P: Pixel, E: Extremum<P>>(row: &mut [P], shift: usize, blocks: usize)
    requires { shift + blocks * 64 ≤ length row.old }
    ensures within { (p : ℕ) (d : P) → p < blocks * 64 → slice_index_or row.new p d ≡ E.merge (slice_index_or row.old p d) (slice_index_or row.old (p + shift) d) }
    ensures past { (p : ℕ) (d : P) → blocks * 64 ≤ p → slice_index_or row.new p d ≡ slice_index_or row.old p d }
{
    for i in 0..blocks {
        block_ahead::<P, E>(row, i * 64, shift);
    }
}

/// 64 samples from that place on, each merged with the one `shift` further on.
#[inline(always)]
fn merged_block<P: Pixel, E: Extremum<P>>(row: &[P], at: usize, shift: usize) -> [P; 64]
    requires { at + shift + 64 ≤ length row.now }
    ensures { (p : ℕ) (d : P) → p < 64 → slice_index_or result p d ≡ E.merge (slice_index_or row.now (at + p) d) (slice_index_or row.now (at + p + shift) d) }
{
    let mut block = block_at(row, at);
    E::combine_block(&mut block, &row[at + shift..at + shift + 64]);
    block
}

/// Merges a block or more of samples. The last block is merged before all others, while what it reads stands as it was, and
/// may begin within the one before.
fn many_ahead<P: Pixel, E: Extremum<P>>(row: &mut [P], shift: usize, n: usize)
    requires block { 64 ≤ n }
    requires room { shift + n ≤ length row.old }
    ensures within { (p : ℕ) (d : P) → p < n → slice_index_or row.new p d ≡ E.merge (slice_index_or row.old p d) (slice_index_or row.old (p + shift) d) }
    ensures past { (p : ℕ) (d : P) → n ≤ p → slice_index_or row.new p d ≡ slice_index_or row.old p d }
{
    if n % 64 == 0 {
        blocks_ahead::<P, E>(row, shift, n / 64);
        return;
    }
    let last = n - 64;
    let rest = merged_block::<P, E>(row, last, shift);
    blocks_ahead::<P, E>(row, shift, n / 64);
    row[last..last + 64].copy_from_slice(&rest);
}

/// Each of the first n samples becomes the extremum of itself and the one `shift` further on.
pub fn combine_ahead<P: Pixel, E: Extremum<P>>(row: &mut [P], shift: usize, n: usize)
    requires { shift + n ≤ length row.old }
    ensures within { (p : ℕ) (d : P) → p < n → slice_index_or row.new p d ≡ E.merge (slice_index_or row.old p d) (slice_index_or row.old (p + shift) d) }
    ensures past { (p : ℕ) (d : P) → n ≤ p → slice_index_or row.new p d ≡ slice_index_or row.old p d }
{
    if n >= 64 {
        many_ahead::<P, E>(row, shift, n);
    } else if n <= shift {
        part_ahead::<P, E>(row, 0, shift, n);
    } else {
        few_ahead::<P, E>(row, shift, n);
    }
}
