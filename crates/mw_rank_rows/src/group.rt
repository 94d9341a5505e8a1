//! Eight rows of results, of a window that may show a part of what they look at.
ghost use Rattle.std.specs.Prelude.{◌≡◌, ℕ, ℤ, ◌+◌, ◌*◌, ◌<◌, ◌≤◌, ◌^◌, pos, negsuc, ◌≤ℤ◌, length, IsTrue, OnOk};
ghost use Rattle.mw_model.specs.declared.limits.TheConstants.{FAR_LIMIT};
ghost use Rattle.mw_model.specs.Windows.{seen_at};
ghost use Rattle.mw_rank_counts.specs.Counting.{AllUnder};
ghost use Rattle.mw_rank_rows.specs.Rectangles.{AreRanks, AreLaneMarks, IsRectangle, AreRowsShown};
ghost use Rattle.mw_rank_rows.specs.Tables.{LanesHold};

use crate::column::Sheet;
use crate::lanes::Lanes;
use crate::marks::sum_of_marks;
use crate::rectangle::Rectangle;
use crate::slide::{Far, Span, Strip, rank_rows};
use mw_model::{NoMemory, Offset, Rect};
use mw_rank_counts::pixel::Grey;
use mw_rank_counts::rank::rank;
use mw_rank_counts::run::place_of;
use mw_rank_counts::tile::Window;
use std::alloc::Global;

/// How far a search may go for each column on average, and how much farther for each row of the element: beyond, one
/// histogram for each row is quicker.
const FAR: usize = 16;

const FAR_A_ROW: usize = 12;

/// How many steps of eight lanes take as long as one histogram for each row to move a level.
const STEPS_A_MOVE: usize = 16;

/// How far searches may go where one histogram for each row is the other way, which would have to move too.
pub(crate) fn far_under(rectangle: Rectangle) -> Far {
    Far {
        a_column: FAR + FAR_A_ROW * rectangle.rows as usize,
        a_move: STEPS_A_MOVE,
    }
}

/// Rows that a window shows of some: how many come before them, its first of them, and how many they are.
#[derive(Clone, Copy)]
pub(crate) struct Shown {
    pub skip: usize,
    pub first: usize,
    pub rows: usize,
}

/// The rows that a window of that height shows of so many from `top` on, where its own first is row 0.
pub(crate) fn shown_rows(top: i64, count: usize, height: u32) -> Shown
    requires low { negsuc FAR_LIMIT ≤ℤ top }
    requires high { top ≤ℤ pos (2 ^ 42) }
    requires few { count ≤ 2 ^ 17 }
    ensures { AreRowsShown top count height result }
{
    let height = height as usize;
    if top < 0 {
        let skip = (-top as usize).min(count);
        return Shown {
            skip,
            first: 0,
            rows: height.min(count - skip),
        };
    }
    let first = (top as usize).min(height);
    Shown {
        skip: 0,
        first,
        rows: count.min(height - first),
    }
}

/// Eight rows of results, the rectangle that they are ranked under, its offsets and marks, the number that is wanted, and how
/// far searches may go.
#[derive(Clone, Copy)]
pub(crate) struct Group<'a> {
    pub place: Rect,
    pub rectangle: Rectangle,
    pub offsets: &'a [Offset],
    pub marks: &'a [u16],
    pub k: u32,
    pub far: Far,
}

/// The ranks of eight rows, by counters that are 0 before and after; says whether it has all of them.
pub(crate) fn rank_together<P: Grey>(
    made: &mut [P],
    counts: &mut [u16],
    lanes: &mut Lanes,
    window: &Window<P>,
    group: Group,
) -> bool
    requires whole { length made.old ≡ 8 * group.place.width }
    requires rectangle { IsRectangle group.rectangle group.offsets.now }
    requires low { group.rectangle.rows ≤ 2 ^ 15 }
    requires few { length group.offsets.now < 2 ^ 16 }
    requires marks { AreLaneMarks group.rectangle.rows group.marks.now }
    requires known { (levels : ℕ) × AllUnder P.level P.TOP window.now.cells levels × LanesHold levels (λ v j. 0) counts.old lanes.old × (levels ≤ P.top_level + 1) }
    ensures empty { (levels : ℕ) → AllUnder P.level P.TOP window.now.cells levels → LanesHold levels (λ v j. 0) counts.old lanes.old → LanesHold levels (λ v j. 0) counts.new lanes.new }
    ensures found { IsTrue result → AreRanks P.level group.entry.k (seen_at window.now) group.entry.offsets.now group.entry.place made.new }
    ensures size { length made.new ≡ length made.old }
{
    let place = window.place();
    let rectangle = group.rectangle;
    let x = u64::from(group.place.x);
    let y = u64::from(group.place.y);
    let top = place_of(y, rectangle.dy, place.y);
    let shown = shown_rows(top, rectangle.rows as usize + 7, place.height);
    let width = place.width as usize;
    let from = shown.first * width;
    let sheet = Sheet {
        samples: &window.samples()[from..from + shown.rows * width],
        width,
        rows: shown.rows,
        marks: &group.marks[shown.skip..],
    };
    let all = sum_of_marks(sheet.marks, shown.rows);
    let strip = Strip {
        sheet,
        first: place.x,
        dx: rectangle.dx,
    };
    let span = Span {
        x,
        width: group.place.width,
        columns: rectangle.columns,
        k: group.k.clamp(1, 65535) as u16,
        far: group.far,
    };
    rank_rows(made, counts, lanes, strip, all, span)
}

/// The ranks of eight rows, by counters that are 0 before and after; says whether the rows went together.
pub(crate) fn rank_group<P: Grey>(
    alloc: Global,
    made: &mut [P],
    counts: &mut [u16],
    lanes: &mut Lanes,
    window: &Window<P>,
    group: Group,
) -> Result<bool, NoMemory>
    requires whole { length made.old ≡ 8 * group.place.width }
    requires eight { group.place.height ≡ 8 }
    requires rectangle { IsRectangle group.rectangle group.offsets.now }
    requires low { group.rectangle.rows ≤ 2 ^ 15 }
    requires few { length group.offsets.now < 2 ^ 16 }
    requires marks { AreLaneMarks group.rectangle.rows group.marks.now }
    requires known { (levels : ℕ) × AllUnder P.level P.TOP window.now.cells levels × LanesHold levels (λ v j. 0) counts.old lanes.old × (levels ≤ P.top_level + 1) }
    ensures empty { OnOk result ((levels : ℕ) → AllUnder P.level P.TOP window.now.cells levels → LanesHold levels (λ v j. 0) counts.old lanes.old → LanesHold levels (λ v j. 0) counts.new lanes.new) }
    ensures found { OnOk result (AreRanks P.level group.entry.k (seen_at window.now) group.entry.offsets.now group.entry.place made.new) }
    ensures size { length made.new ≡ length made.old }
{
    if rank_together(made, counts, lanes, window, group) {
        return Ok(true);
    }
    let apart = rank(alloc, window, group.offsets, group.k, group.place)?;
    made.copy_from_slice(apart.samples());
    Ok(false)
}
