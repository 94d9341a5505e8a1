//! The passes over blocks, after van Herk (1992) and Gil and Werman (1993).
ghost use Rattle.std.specs.Prelude.{◌≡◌, ℕ, ◌+◌, ◌*◌, ◌<◌, ◌≤◌, ◌^◌, length, drop, take, fold, slice_index_or, slice_range};
ghost use Rattle.mw_line.specs.Line.{combines};

use crate::steps::Counted;

/// Leaves at each place the extremum of the block from there to its end.
fn backward<P: Copy, C: Counted<P>>(block: &[P], neutral: P, tail: &mut [P], counter: &mut C)
    requires paired { length tail.old ≡ length block.now }
    requires room { C.count counter.old + length block.now < 2 ^ 64 }
    ensures value { (r : ℕ) → r < length block.now → slice_index_or tail.new r neutral ≡ fold C.merge neutral (drop r block.now) }
    ensures counted { C.count counter.new ≡ C.count counter.old + length block.now }
{
    let mut best = neutral;
    let mut at = block.len();
    'back: while at > 0 {
        at -= 1;
        best = counter.combine(block[at], best);
        tail[at] = best;
    }
}

/// Combines what a block's tail has at each place with the extremum of as many samples after the block.
fn forward<P: Copy, C: Counted<P>>(
    rest: &[P],
    neutral: P,
    tail: &[P],
    out: &mut [P],
    counter: &mut C,
)
    requires rest { length out.old ≤ length rest.now }
    requires tail { length out.old ≤ length tail.now }
    requires room { C.count counter.old + 2 * length out.old < 2 ^ 64 }
    ensures value { (r : ℕ) → r < length out.old → slice_index_or out.new r neutral ≡ C.merge (slice_index_or tail.now r neutral) (fold C.merge neutral (take r rest.now)) }
    ensures counted { C.count counter.new ≡ C.count counter.old + 2 * length out.old }
{
    let mut best = neutral;
    let mut at = 0usize;
    'on: while at < out.len() {
        out[at] = counter.combine(tail[at], best);
        best = counter.combine(best, rest[at]);
        at += 1;
    }
}

/// The extremum of each k neighbours, by a backward and a forward pass over blocks of k.
pub(crate) fn slide<P: Copy, C: Counted<P>>(
    padded: &[P],
    k: usize,
    neutral: P,
    tail: &mut [P],
    out: &mut [P],
    counter: &mut C,
)
    requires positive { 0 < k }
    requires tail { length tail.old ≡ k }
    requires wide { length out.old + k ≤ length padded.now }
    requires room { C.count counter.old + (3 * length out.old + k) < 2 ^ 64 }
    ensures value { (i : ℕ) → i < length out.old → slice_index_or out.new i neutral ≡ fold C.merge neutral (slice_range padded.now i (i + k)) }
    ensures counted { C.count counter.new ≡ C.count counter.old + combines (length out.old) k }
{
    let mut at = 0usize;
    'chunks: while at < out.len() {
        backward::<P, C>(&padded[at..at + k], neutral, tail, counter);
        let room = out.len() - at;
        let m = if k < room { k } else { room };
        forward::<P, C>(
            &padded[at + k..],
            neutral,
            tail,
            &mut out[at..at + m],
            counter,
        );
        at += m;
    }
}
