//! The counted sliding extremum of a line, after van Herk (1992) and Gil and Werman (1993): blocks of the window's length,
//! with the extremum of each block from each place to its end, and of the samples after it from its end to each place. A
//! window is the end of one block and the beginning of the next, so each place costs three combines, whatever the
//! window's length.
ghost use Rattle.std.specs.Prelude.{◌≡◌, ℕ, ◌+◌, ◌*◌, ◌<◌, ◌≤◌, ◌^◌, ◌≤ℤ◌, length, slice_index_or, OnOk, OnErr};
ghost use Rattle.mw_line.specs.Line.{combines, line_at, places_within};
ghost use Rattle.mw_model.specs.Rectangles.{span};

use crate::padding::{cut_to, padded, places, places_after, places_before, places_skipped};
use crate::passes::slide;
use crate::steps::Tally;
use crate::{NoMemory, Steps};
use mw_tile::pixel::{Extremum, Pixel, copies};
use std::alloc::Global;
use std::marker::PhantomData;

/// The line by a bar of which no end lies further out than the line is long.
fn line_within<P: Pixel, E: Extremum<P>>(
    alloc: Global,
    src: &[P],
    a: i32,
    b: i32,
    neutral: P,
    out: &mut [P],
    steps: &mut Steps,
) -> Result<(), NoMemory>
    requires ordered { a ≤ℤ b }
    requires paired { length out.old ≡ length src.now }
    requires room { steps.old.count + (3 * length src.now + span a b) < 2 ^ 64 }
    ensures value { OnOk result ((i : ℕ) → i < length src.now → slice_index_or out.new i neutral ≡ line_at E.merge neutral src.now a b i) }
    ensures counted { OnOk result (steps.new.count ≡ steps.old.count + combines (length src.now) (span a b)) }
    ensures err { OnErr result ((out.new ≡ out.old) × (steps.new ≡ steps.old)) }
{
    let k = places(a, b);
    let left = places_before(a);
    let skip = places_skipped(a);
    let right = places_after(b);
    let row = padded(alloc, src, left, skip, right, neutral)?;
    let mut tail = copies(alloc, k, neutral)?;
    let mut tally = Tally::<E> {
        count: steps.count,
        extremum: PhantomData,
    };
    slide::<P, Tally<E>>(
        row.as_slice(),
        k,
        neutral,
        tail.as_mut_slice(),
        out,
        &mut tally,
    );
    let Tally { count, extremum: _ } = tally;
    steps.count = count;
    Ok(())
}

/// At each place i the extremum of the neutral sample and the samples at the places i + a to i + b that exist. The ends of
/// the bar are cut to the row, so what is asked for grows with the row and not with the bar. The combines are counted, and
/// no more than 3n + k for n samples and a bar of k places. After an error `out` and `steps` are as before.
pub fn line<P: Pixel, E: Extremum<P>>(
    alloc: Global,
    src: &[P],
    a: i32,
    b: i32,
    neutral: P,
    out: &mut [P],
    steps: &mut Steps,
) -> Result<(), NoMemory>
    requires ordered { a ≤ℤ b }
    requires paired { length out.old ≡ length src.now }
    requires room { steps.old.count + (3 * length src.now + span a b) < 2 ^ 64 }
    ensures value { OnOk result ((i : ℕ) → i < length src.now → slice_index_or out.new i neutral ≡ line_at E.merge neutral src.now a b i) }
    ensures counted { OnOk result (steps.new.count ≡ steps.old.count + combines (length src.now) (places_within (length src.now) a b)) }
    ensures few { OnOk result (steps.new.count ≤ steps.old.count + (3 * length src.now + span a b)) }
    ensures err { OnErr result ((out.new ≡ out.old) × (steps.new ≡ steps.old)) }
{
    let first = cut_to(src.len(), a);
    let last = cut_to(src.len(), b);
    line_within::<P, E>(alloc, src, first, last, neutral, out, steps)
}
