//! Lines of tall boxes, by the method of van Herk (1992) and of Gil and Werman (1993): three merges a line, however tall the boxes.
//! Rows are taken by blocks of as many as a box has, so each box ends in the block behind the one that it begins in. A sheet has the
//! extrema from each row of a block to its end, its tails. Line by line the extrema from the beginning of the next block on, its
//! heads, take their places.
//!
//! ```text
//! sheet:   neutral | head of no row | tail from row 0 | tail from row 1 | .. | tail from the last row | neutral
//! line y:  the head of y rows, in place y, merged with the tail from row y, in place y + 2; the next head goes between them
//! ```
ghost use Rattle.std.specs.Prelude.{◌≡◌, ℕ, ◌+◌, ◌-◌, ◌*◌, ◌<◌, ◌≤◌, ◌^◌, length, slice_index_or};
ghost use Rattle.mw_line.specs.Cells.{merged_cell};
ghost use Rattle.mw_line_lent.specs.Boxes.{HasBoxes, HasLine, IsBlank, wide_of};
ghost use Rattle.mw_line_lent.specs.Sheets.{AreTall, HasParts, HasTails, IsSheet};

use crate::boxes::{Boxes, part_of};
use crate::extrema::LanedExtremum;
use crate::lanes::Laned;
use crate::rows::put_rows;
use crate::sheets::{Row, put_before, put_between};
use mw_line::pixel::Pixel;
use mw_tile_lent::Lent;

/// Tall boxes, and a line of neutral samples for rows that the place has not.
#[derive(Clone, Copy)]
pub(crate) struct Tall<'a, P: Pixel> {
    pub boxes: Boxes,
    pub blank: &'a [P],
}

/// Line y of the boxes, and which one it is of its block.
#[derive(Clone, Copy)]
struct Turn {
    y: usize,
    at: usize,
}

/// Row y of the boxes, in the columns of them that the place has.
fn row_of<'a, P: Laned, E: LanedExtremum<P>>(
    lent: &Lent<'a, P>,
    tall: Tall<'a, P>,
    neutral: P,
    y: usize,
) -> Row<'a, P>
    requires tall { AreTall P.WIDTH lent.now.place.width tall.boxes neutral tall.blank.now }
    requires low { y < 2 ^ 33 }
    ensures inside { result.from + tall.entry.boxes.part.count ≤ length result.samples.now }
    ensures cells { (i : ℕ) → i < tall.entry.boxes.part.count → E.merge neutral (slice_index_or result.samples.now (result.from + i) neutral) ≡ merged_cell E.merge neutral lent.now tall.entry.boxes.column tall.entry.boxes.row (tall.entry.boxes.part.behind + i) y }
{
    let place = lent.place();
    let seen = part_of(tall.boxes.row + y as i64, 1, place.height);
    if seen.count == 0 {
        return Row {
            samples: tall.blank,
            from: 0,
        };
    }
    let stride = place.width as usize;
    Row {
        samples: lent.samples(),
        from: seen.ahead * stride + tall.boxes.part.ahead,
    }
}

/// Writes the tails of the block that begins with this row.
fn put_tails<'a, P: Laned, E: LanedExtremum<P>>(
    lent: &Lent<'a, P>,
    tall: Tall<'a, P>,
    neutral: P,
    first: usize,
    sheet: &mut [P],
)
    requires tall { AreTall P.WIDTH lent.now.place.width tall.boxes neutral tall.blank.now }
    requires low { first < 2 ^ 32 }
    requires sheet { IsSheet neutral tall.boxes sheet.old }
    ensures sheet { IsSheet neutral tall.entry.boxes sheet.new }
    ensures tails { HasTails E.merge neutral lent.now tall.entry.boxes first 0 sheet.new }
{
    let count = tall.boxes.part.count;
    let mut left = tall.boxes.down;
    'by_rows: while left > 0 {
        left -= 1;
        let row = row_of::<P, E>(lent, tall, neutral, first + left);
        put_before::<P, E>(row, sheet, (left + 2) * count, count);
    }
}

/// Where a line stands in its block. Where the block before is at its end, this writes the tails of the next one.
fn place_in_block<'a, P: Laned, E: LanedExtremum<P>>(
    lent: &Lent<'a, P>,
    tall: Tall<'a, P>,
    neutral: P,
    turn: Turn,
    sheet: &mut [P],
) -> Turn
    requires tall { AreTall P.WIDTH lent.now.place.width tall.boxes neutral tall.blank.now }
    requires low { turn.y < 2 ^ 32 }
    requires sheet { IsSheet neutral tall.boxes sheet.old }
    requires parts { turn.at < tall.boxes.down → HasParts E.merge neutral lent.now tall.boxes turn.y turn.at sheet.old }
    ensures line { result.y ≡ turn.y }
    ensures few { result.at < tall.entry.boxes.down }
    ensures sheet { IsSheet neutral tall.entry.boxes sheet.new }
    ensures parts { HasParts E.merge neutral lent.now tall.entry.boxes turn.y result.at sheet.new }
{
    if turn.at < tall.boxes.down {
        return turn;
    }
    put_tails::<P, E>(lent, tall, neutral, turn.y, sheet);
    Turn { y: turn.y, at: 0 }
}

/// Writes a line, and the next head.
fn put_tall_line<'a, P: Laned, E: LanedExtremum<P>>(
    lent: &Lent<'a, P>,
    tall: Tall<'a, P>,
    neutral: P,
    turn: Turn,
    sheet: &mut [P],
    lines: &mut [P],
)
    requires tall { AreTall P.WIDTH lent.now.place.width tall.boxes neutral tall.blank.now }
    requires low { turn.y < 2 ^ 32 }
    requires few { turn.at < tall.boxes.down }
    requires sheet { IsSheet neutral tall.boxes sheet.old }
    requires parts { HasParts E.merge neutral lent.now tall.boxes turn.y turn.at sheet.old }
    requires blank { IsBlank neutral tall.boxes lines.old }
    ensures sheet { IsSheet neutral tall.entry.boxes sheet.new }
    ensures parts { HasParts E.merge neutral lent.now tall.entry.boxes (turn.y + 1) (turn.at + 1) sheet.new }
    ensures blank { IsBlank neutral tall.entry.boxes lines.new }
    ensures line { HasLine E.merge neutral lent.now tall.entry.boxes turn.y 0 lines.new }
{
    let part = tall.boxes.part;
    let row = row_of::<P, E>(lent, tall, neutral, turn.y + tall.boxes.down);
    let at = turn.at * part.count;
    put_between::<P, E>(row, sheet, at, part.count, lines, part.behind);
}

/// Writes all rows of tall boxes, one after another.
pub(crate) fn put_tall<'a, P: Laned, E: LanedExtremum<P>>(
    lent: &Lent<'a, P>,
    tall: Tall<'a, P>,
    neutral: P,
    sheet: &mut [P],
    lines: &mut [P],
    spare: &mut [P],
    out: &mut [P],
)
    requires tall { AreTall P.WIDTH lent.now.place.width tall.boxes neutral tall.blank.now }
    requires sheet { IsSheet neutral tall.boxes sheet.old }
    requires blank { IsBlank neutral tall.boxes lines.old }
    requires spare { length spare.old ≡ 2 * wide_of tall.boxes }
    requires room { length out.old ≡ tall.boxes.height * tall.boxes.width }
    ensures size { length out.new ≡ length out.old }
    ensures made { HasBoxes E.merge neutral lent.now tall.entry.boxes tall.entry.boxes.height out.new }
{
    let boxes = tall.boxes;
    let mut y = 0usize;
    let mut next = boxes.down;
    'by_lines: while y < boxes.height {
        let turn = place_in_block::<P, E>(lent, tall, neutral, Turn { y, at: next }, sheet);
        put_tall_line::<P, E>(lent, tall, neutral, turn, sheet, lines);
        put_rows::<P, E>(lines, 1, boxes, spare, out, y * boxes.width);
        next = turn.at + 1;
        y += 1;
    }
}
