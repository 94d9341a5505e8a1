//! Lists of chords: each list has at each place the extremum of so many samples from there on. A list is made of the one before
//! it, merged with itself, shifted. A chunk of each is made after the other, so that they stay in the nearest cache; the last chunk
//! comes first, since chords look ahead.
ghost use Rattle.std.specs.Prelude.{◌≡◌, ℕ, ◌+◌, ◌-◌, ◌*◌, ◌<◌, ◌≤◌, ◌^◌, List, length, slice_index_or};
ghost use Rattle.mw_line_lent.specs.Boxes.{IsPutAt};
ghost use Rattle.mw_chord_lent.specs.Grown.{AreGrown};
ghost use Rattle.mw_chord_lent.specs.Sizes.{AreSizes};

use mw_line_lent::{Laned, LanedExtremum};

/// Chords from a place on, which are to be those at another one merged with those `ahead` of them.
#[derive(Clone, Copy)]
pub(crate) struct Step {
    pub from: usize,
    pub to: usize,
    pub ahead: usize,
}

/// Makes a block of two vectors.
#[inline(always)]
fn grow_block<P: Laned, E: LanedExtremum<P>>(lists: &mut [P], step: Step)
    requires seen { step.from + step.ahead + 2 * P.WIDTH ≤ length lists.old }
    requires room { step.to + 2 * P.WIDTH ≤ length lists.old }
    ensures put { IsPutAt step.to (2 * P.WIDTH) lists.old lists.new }
    ensures made { (i : ℕ) (d : P) → i < 2 * P.WIDTH → slice_index_or lists.new (step.to + i) d ≡ E.merge (slice_index_or lists.old (step.from + i) d) (slice_index_or lists.old (step.from + step.ahead + i) d) }
{
    let Step { from, to, ahead } = step;
    let lanes = P::WIDTH;
    let first = E::merged(P::load(lists, from), P::load(lists, from + ahead));
    let second = E::merged(
        P::load(lists, from + lanes),
        P::load(lists, from + ahead + lanes),
    );
    P::store(first, lists, to);
    P::store(second, lists, to + lanes);
}

/// How many blocks a chunk has.
pub(crate) const BLOCKS: usize = 16;

/// Makes a chunk of a list.
#[inline(never)]
fn grow_chunk<P: Laned, E: LanedExtremum<P>>(lists: &mut [P], step: Step)
    requires apart { step.from + step.ahead + 32 * P.WIDTH ≤ step.to }
    requires room { step.to + 32 * P.WIDTH ≤ length lists.old }
    ensures put { IsPutAt step.to (32 * P.WIDTH) lists.old lists.new }
    ensures made { (i : ℕ) (d : P) → i < 32 * P.WIDTH → slice_index_or lists.new (step.to + i) d ≡ E.merge (slice_index_or lists.old (step.from + i) d) (slice_index_or lists.old (step.from + step.ahead + i) d) }
{
    for k in 0..BLOCKS {
        let done = k * (2 * P::WIDTH);
        let block = Step {
            from: step.from + done,
            to: step.to + done,
            ahead: step.ahead,
        };
        grow_block::<P, E>(lists, block);
    }
}

/// Makes a chunk of each list, from that place on.
fn grow_chunks<P: Laned, E: LanedExtremum<P>>(
    lists: &mut [P],
    sizes: &[usize],
    span: usize,
    first: usize,
)
    requires chain { AreSizes sizes.now }
    requires ahead { (j : ℕ) → j < length sizes.now → first + 32 * P.WIDTH + slice_index_or sizes.now j 0 ≤ span }
    requires room { length sizes.now * span ≤ length lists.old }
    ensures size { length lists.new ≡ length lists.old }
    ensures grown { (cells : List P) (n : ℕ) → n ≤ span → AreGrown E.merge cells lists.old sizes.now span n (first + 32 * P.WIDTH) → AreGrown E.merge cells lists.new sizes.now span n first }
{
    for j in 1..sizes.len() {
        let step = Step {
            from: (j - 1) * span + first,
            to: j * span + first,
            ahead: sizes[j] - sizes[j - 1],
        };
        grow_chunk::<P, E>(lists, step);
    }
}

/// Makes so many chunks of each list.
pub(crate) fn grow<P: Laned, E: LanedExtremum<P>>(
    lists: &mut [P],
    sizes: &[usize],
    span: usize,
    chunks: usize,
)
    requires chain { AreSizes sizes.now }
    requires ahead { (j : ℕ) → j < length sizes.now → chunks * (32 * P.WIDTH) + slice_index_or sizes.now j 0 ≤ span }
    requires room { length sizes.now * span ≤ length lists.old }
    ensures size { length lists.new ≡ length lists.old }
    ensures grown { AreGrown E.merge lists.old lists.new sizes.now span (chunks * (32 * P.WIDTH)) 0 }
{
    let mut left = chunks;
    'by_chunk: while left > 0 {
        left -= 1;
        let first = left * (BLOCKS * 2 * P::WIDTH);
        grow_chunks::<P, E>(lists, sizes, span, first);
    }
}
