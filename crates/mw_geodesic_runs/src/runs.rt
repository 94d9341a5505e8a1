//! The runs of a set, row by row.

ghost use Rattle.std.specs.Prelude.{◌≡◌, ℕ, ◌+◌, ◌-◌, ◌*◌, ◌<◌, ◌≤◌, ◌^◌, List, ◌++◌, length, vec_capacity};
ghost use Rattle.std.specs.Int.{bit_at};
ghost use Rattle.mw_pixel.specs.Images.{set_of};
ghost use Rattle.mw_geodesic_runs.specs.declared.runs.Run.{Run};
ghost use Rattle.mw_geodesic_runs.specs.Runs.{RunsBefore, begin_at, begun, run_count, tally};
ghost use Rattle.mw_geodesic_runs.specs.Rows.{AreCutAbove, AreRowRunsFrom};
ghost use Rattle.mw_pixel.specs.mw_pixel_words.Packed.{bit_of};

use crate::changes::{changes_behind, next_change};
use crate::scanning::next_place;
use mw_pixel::Words;

/// Pixels of a set that stand side by side in a row, as many as do: those from a first column up to an end, which is not
/// of the run.
#[derive(Clone, Copy, Debug)]
pub struct Run {
    pub row: u32,
    pub first: u16,
    pub end: u16,
}

/// Adds the runs of a row, for which there is room, behind those of the rows above.
fn cut_row(set: &Words, y: u32, runs: &mut Vec<Run>)
    requires narrow { set.now.width < 2 ^ 16 }
    requires row { y < set.now.height }
    requires room { length runs.old.items + begun (set_of set.now) y set.now.width ≤ vec_capacity runs.old }
    ensures runs { (above : List Run) → RunsBefore (set_of set.now) 0 y (above ++ runs.old.items) → RunsBefore (set_of set.now) 0 (y + 1) (above ++ runs.new.items) }
    ensures room { vec_capacity runs.new ≡ vec_capacity runs.old }
{
    let words = set.row(y);
    let limit = 64 * words.len();
    let mut at = next_place(words, 0, true);
    let mut left = changes_behind(words, at);
    'cuts: while at < limit {
        let end = next_change(words, at, &mut left);
        runs.push_reserved(Run {
            row: y,
            first: at as u16,
            end: end as u16,
        });
        at = next_change(words, end, &mut left);
    }
}

/// The runs of a row in place of what the list had, in which there is room for a run of each column.
pub(crate) fn runs_in_row(set: &Words, y: u32, runs: &mut Vec<Run>)
    requires narrow { set.now.width < 2 ^ 16 }
    requires row { y < set.now.height }
    requires room { set.now.width ≤ vec_capacity runs.old }
    ensures are { (all : List Run) (n : ℕ) → RunsBefore (set_of set.now) 0 set.now.height all → AreCutAbove (set_of set.now) y n → AreRowRunsFrom all n runs.new.items }
    ensures next { (n : ℕ) → AreCutAbove (set_of set.now) y n → AreCutAbove (set_of set.now) (y + 1) (n + length runs.new.items) }
    ensures room { vec_capacity runs.new ≡ vec_capacity runs.old }
{
    // for its samples
    let _width = set.width();
    runs.clear();
    cut_row(set, y, runs);
}

/// The bits at which runs begin, in a word of a row behind a word that ends with this bit.
#[inline(always)]
fn begin_bits(word: u64, last: u64) -> u64
    requires { last < 2 }
    ensures fits { result < 2 ^ 64 }
    ensures first { bit_at result 0 ≡ bit_at word 0 - last }
    ensures others { (i : ℕ) → i + 1 < 64 → bit_at result (i + 1) ≡ bit_at word (i + 1) - bit_at word i }
{
    word & !((word << 1) | last)
}

/// The last bit of a word.
#[inline(always)]
pub(crate) fn last_bit(word: u64) -> u64
    ensures { result ≡ bit_at word 63 }
{
    word >> 63
}

/// How many runs begin in the words of a row.
fn count_starts(words: &[u64]) -> usize
    requires { length words.now < 2 ^ 32 }
    ensures count { result ≡ tally (begin_at (bit_of words.now)) (64 * length words.now) }
    ensures few { result ≤ 64 * length words.now }
{
    let mut count = 0;
    let mut last = 0;
    for k in 0..words.len() {
        let word = words[k];
        count += begin_bits(word, last).count_ones() as usize;
        last = last_bit(word);
    }
    count
}

/// How many runs a set has.
pub(crate) fn count_runs(set: &Words) -> usize
    requires { set.now.width < 2 ^ 16 }
    ensures { result ≡ run_count (set_of set.now) }
{
    let mut count = 0;
    for y in 0..set.height() {
        count += count_starts(set.row(y));
    }
    count
}
