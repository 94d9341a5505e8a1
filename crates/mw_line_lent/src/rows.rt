//! Rows of results from lines: by taps for narrow boxes, and else by windows of 4 places, of which windows of 16 are made for
//! wide ones, and of these windows of 64 for the widest.
ghost use Rattle.std.specs.Prelude.{◌≡◌, ℕ, ◌+◌, ◌-◌, ◌*◌, ◌<◌, ◌≤◌, ◌^◌, length, slice_index_or};
ghost use Rattle.mw_line_lent.specs.Bests.{IsBest};
ghost use Rattle.mw_line_lent.specs.Boxes.{IsPutAt, IsSuited, wide_of};

use crate::across::{Taps, put_across};
use crate::boxes::Boxes;
use crate::extrema::LanedExtremum;
use crate::lanes::Laned;

/// The widest boxes that are made by taps, by windows of 4 alone, and by windows of 16.
const BY_TAPS: usize = 9;

const BY_FOURS: usize = 36;

const BY_SIXTEENS: usize = 112;

/// Writes the row of a line by windows of 4 places.
fn put_by_fours<P: Laned, E: LanedExtremum<P>>(
    lines: &[P],
    from: usize,
    boxes: Boxes,
    spare: &mut [P],
    out: &mut [P],
    at: usize,
)
    requires suited { IsSuited P.WIDTH boxes }
    requires across { 4 < boxes.across }
    requires line { from + wide_of boxes ≤ length lines.now }
    requires spare { wide_of boxes ≤ length spare.old }
    requires room { at + boxes.width ≤ length out.old }
    ensures spare { length spare.new ≡ length spare.old }
    ensures put { IsPutAt at boxes.width out.old out.new }
    ensures made { (i : ℕ) (d : P) → i < boxes.width → IsBest E.merge (λ j. slice_index_or lines.now (from + j) d) i (i + boxes.across) (slice_index_or out.new (at + i) d) }
{
    let across = boxes.across;
    let wide = boxes.width + (across - 1);
    let fours = Taps {
        from,
        step: 1,
        count: 3,
        last: 3,
    };
    put_across::<P, E>(lines, fours, spare, 0, wide - 3);
    let taps = Taps {
        from: 0,
        step: 4,
        count: (across - 1) / 4,
        last: across - 4,
    };
    put_across::<P, E>(spare, taps, out, at, boxes.width);
}

/// Writes the windows of 16 places of a line.
fn put_sixteens<P: Laned, E: LanedExtremum<P>>(
    lines: &[P],
    from: usize,
    boxes: Boxes,
    fours: &mut [P],
    sixteens: &mut [P],
)
    requires suited { IsSuited P.WIDTH boxes }
    requires across { 16 < boxes.across }
    requires line { from + wide_of boxes ≤ length lines.now }
    requires fours { wide_of boxes ≤ length fours.old }
    requires sixteens { wide_of boxes ≤ length sixteens.old }
    ensures fours { length fours.new ≡ length fours.old }
    ensures sixteens { length sixteens.new ≡ length sixteens.old }
    ensures made { (j : ℕ) (d : P) → j + 15 < wide_of boxes → IsBest E.merge (λ i. slice_index_or lines.now (from + i) d) j (j + 16) (slice_index_or sixteens.new (0 + j) d) }
{
    let wide = boxes.width + (boxes.across - 1);
    let neighbours = Taps {
        from,
        step: 1,
        count: 3,
        last: 3,
    };
    put_across::<P, E>(lines, neighbours, fours, 0, wide - 3);
    let taps = Taps {
        from: 0,
        step: 4,
        count: 3,
        last: 12,
    };
    put_across::<P, E>(fours, taps, sixteens, 0, wide - 15);
}

/// Writes the row of a line by windows of 16 places.
fn put_by_sixteens<P: Laned, E: LanedExtremum<P>>(
    lines: &[P],
    from: usize,
    boxes: Boxes,
    spare: &mut [P],
    out: &mut [P],
    at: usize,
)
    requires suited { IsSuited P.WIDTH boxes }
    requires across { 16 < boxes.across }
    requires line { from + wide_of boxes ≤ length lines.now }
    requires spare { 2 * wide_of boxes ≤ length spare.old }
    requires room { at + boxes.width ≤ length out.old }
    ensures spare { length spare.new ≡ length spare.old }
    ensures put { IsPutAt at boxes.width out.old out.new }
    ensures made { (i : ℕ) (d : P) → i < boxes.width → IsBest E.merge (λ j. slice_index_or lines.now (from + j) d) i (i + boxes.across) (slice_index_or out.new (at + i) d) }
{
    let across = boxes.across;
    let (near, far) = spare.split_at_mut(boxes.width + (across - 1));
    put_sixteens::<P, E>(lines, from, boxes, near, far);
    let taps = Taps {
        from: 0,
        step: 16,
        count: (across - 1) / 16,
        last: across - 16,
    };
    put_across::<P, E>(far, taps, out, at, boxes.width);
}

/// Writes the row of a line by windows of 64 places.
fn put_by_sixty_fours<P: Laned, E: LanedExtremum<P>>(
    lines: &[P],
    from: usize,
    boxes: Boxes,
    spare: &mut [P],
    out: &mut [P],
    at: usize,
)
    requires suited { IsSuited P.WIDTH boxes }
    requires across { 64 < boxes.across }
    requires line { from + wide_of boxes ≤ length lines.now }
    requires spare { 2 * wide_of boxes ≤ length spare.old }
    requires room { at + boxes.width ≤ length out.old }
    ensures spare { length spare.new ≡ length spare.old }
    ensures put { IsPutAt at boxes.width out.old out.new }
    ensures made { (i : ℕ) (d : P) → i < boxes.width → IsBest E.merge (λ j. slice_index_or lines.now (from + j) d) i (i + boxes.across) (slice_index_or out.new (at + i) d) }
{
    let across = boxes.across;
    let wide = boxes.width + (across - 1);
    let (near, far) = spare.split_at_mut(wide);
    put_sixteens::<P, E>(lines, from, boxes, near, far);
    let sixteens = Taps {
        from: 0,
        step: 16,
        count: 3,
        last: 48,
    };
    put_across::<P, E>(far, sixteens, near, 0, wide - 63);
    let taps = Taps {
        from: 0,
        step: 64,
        count: (across - 1) / 64,
        last: across - 64,
    };
    put_across::<P, E>(near, taps, out, at, boxes.width);
}

/// Writes the row of a line.
fn put_row<P: Laned, E: LanedExtremum<P>>(
    lines: &[P],
    from: usize,
    boxes: Boxes,
    spare: &mut [P],
    out: &mut [P],
    at: usize,
)
    requires suited { IsSuited P.WIDTH boxes }
    requires line { from + wide_of boxes ≤ length lines.now }
    requires spare { 2 * wide_of boxes ≤ length spare.old }
    requires room { at + boxes.width ≤ length out.old }
    ensures spare { length spare.new ≡ length spare.old }
    ensures put { IsPutAt at boxes.width out.old out.new }
    ensures made { (i : ℕ) (d : P) → i < boxes.width → IsBest E.merge (λ j. slice_index_or lines.now (from + j) d) i (i + boxes.across) (slice_index_or out.new (at + i) d) }
{
    let across = boxes.across;
    if across > BY_SIXTEENS {
        put_by_sixty_fours::<P, E>(lines, from, boxes, spare, out, at);
        return;
    }
    if across > BY_FOURS {
        put_by_sixteens::<P, E>(lines, from, boxes, spare, out, at);
        return;
    }
    if across > BY_TAPS {
        put_by_fours::<P, E>(lines, from, boxes, spare, out, at);
        return;
    }
    let taps = Taps {
        from,
        step: 1,
        count: across - 1,
        last: across - 1,
    };
    put_across::<P, E>(lines, taps, out, at, boxes.width);
}

/// Writes the rows of so many lines, one after another.
pub(crate) fn put_rows<P: Laned, E: LanedExtremum<P>>(
    lines: &[P],
    count: usize,
    boxes: Boxes,
    spare: &mut [P],
    out: &mut [P],
    at: usize,
)
    requires suited { IsSuited P.WIDTH boxes }
    requires lines { count * wide_of boxes ≤ length lines.now }
    requires spare { 2 * wide_of boxes ≤ length spare.old }
    requires room { at + count * boxes.width ≤ length out.old }
    ensures spare { length spare.new ≡ length spare.old }
    ensures put { IsPutAt at (count * boxes.width) out.old out.new }
    ensures made { (r i : ℕ) (d : P) → r < count → i < boxes.width → IsBest E.merge (λ j. slice_index_or lines.now (r * wide_of boxes + j) d) i (i + boxes.across) (slice_index_or out.new (at + (r * boxes.width + i)) d) }
{
    let wide = boxes.width + (boxes.across - 1);
    for r in 0..count {
        put_row::<P, E>(lines, r * wide, boxes, spare, out, at + r * boxes.width);
    }
}
