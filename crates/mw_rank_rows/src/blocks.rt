//! The rank filter of a tile whose levels are many: the samples that a block of results sees are numbered in the order of their
//! levels (`mw_rank_numbers`), so that eight rows at a time search among few numbers, however far levels lie apart. A rank of
//! numbers is the number of the rank, which is turned back into its level.
ghost use Rattle.std.specs.Prelude.{◌≡◌, ℕ, ◌+◌, ◌-◌, ◌*◌, ◌<◌, ◌≤◌, ◌^◌, length, IfOk, IfSome};
ghost use Rattle.mw_model.specs.Windows.{seen_at};
ghost use Rattle.mw_rank_counts.specs.Counting.{AllUnder};
ghost use Rattle.mw_rank_counts.specs.mw_rank.Ranks.{HasRanks};
ghost use Rattle.mw_rank_numbers.specs.Numbers.{IsNumbering};
ghost use Rattle.mw_rank_rows.specs.Blocks.{ShowsPart, IsPart};
ghost use Rattle.mw_rank_rows.specs.Rectangles.{IsRectangle};

use crate::group::{Group, rank_together, shown_rows};
use crate::lanes::no_samples;
use crate::marks::marks_of;
use crate::rectangle::{Rectangle, Wanted};
use crate::rest::push_from;
use crate::slide::Far;
use mw_model::{NoMemory, Rect};
use mw_rank_counts::pixel::{Grey, Plane, copies};
use mw_rank_counts::run::place_of;
use mw_rank_counts::tile::Window;
use mw_rank_numbers::{Numbered, Part, numbers_of, push_levels};
use std::alloc::Global;

/// The part of a window that results see of it.
fn part_under<P: Grey>(window: &Window<P>, rectangle: Rectangle, place: Rect) -> Part
    requires some { 1 ≤ rectangle.columns }
    requires tall { 1 ≤ rectangle.rows }
    requires wide { rectangle.columns ≤ 2 ^ 16 }
    requires low { rectangle.rows ≤ 2 ^ 16 }
    requires narrow { place.width ≤ 2 ^ 16 }
    requires short { place.height ≤ 2 ^ 16 }
    ensures { ShowsPart window.now.place rectangle place result }
{
    let all = window.place();
    let x = u64::from(place.x);
    let y = u64::from(place.y);
    let left = place_of(x, rectangle.dx, all.x);
    let top = place_of(y, rectangle.dy, all.y);
    let across = place.width as usize + rectangle.columns as usize - 1;
    let down = place.height as usize + rectangle.rows as usize - 1;
    let columns = shown_rows(left, across, all.width);
    let rows = shown_rows(top, down, all.height);
    Part {
        column: columns.first as u32,
        row: rows.first as u32,
        width: columns.rows as u32,
        height: rows.rows as u32,
    }
}

/// The window of the numbers of a part.
fn window_of<P: Grey>(window: &Window<P>, part: Part, numbers: Vec<u16>) -> Window<u16>
    requires across { part.column + part.width ≤ window.now.place.width }
    requires down { part.row + part.height ≤ window.now.place.height }
    requires size { length numbers.items ≡ part.height * part.width }
    ensures place { IsPart window.now.place part result.place }
    ensures cells { result.cells ≡ numbers.items }
    ensures whole { length window.now.cells ≡ window.now.place.height * window.now.place.width }
{
    // for their number
    let _samples = window.samples();
    let all = window.place();
    let wide = window.frame_width();
    let high = window.frame_height();
    let place = Rect {
        x: all.x + part.column,
        y: all.y + part.row,
        width: part.width,
        height: part.height,
    };
    let plane = Plane::new(part.width, part.height, numbers);
    Window::new(wide, high, place, plane)
}

/// The ranks of rows of results, eight at a time, where all searches are near. The last eight rows begin early enough to end
/// with the others.
fn rank_eights<P: Grey>(
    alloc: Global,
    window: &Window<P>,
    wanted: Wanted,
    place: Rect,
    levels: usize,
    far: usize,
) -> Result<Option<Vec<P>>, NoMemory>
    requires tall { 8 ≤ place.height }
    requires inside { place.y + place.height < 2 ^ 32 }
    requires rectangle { IsRectangle wanted.rectangle wanted.offsets.now }
    requires low { wanted.rectangle.rows ≤ 2 ^ 15 }
    requires few { length wanted.offsets.now < 2 ^ 16 }
    requires level { 1 ≤ levels }
    requires short { levels < 65536 }
    requires fits { levels ≤ P.top_level + 1 }
    requires under { AllUnder P.level P.TOP window.now.cells levels }
    ensures { IfOk result (λ o. IfSome o (λ v. HasRanks P.level wanted.entry.k (seen_at window.now) wanted.entry.offsets.now place v.items)) }
{
    let width = place.width as usize;
    let marks = marks_of(alloc, wanted.rectangle.rows as usize)?;
    let mut table = vec![in alloc; 0u16; levels * 8]?;
    let mut eight = copies(alloc, 8 * width, P::TOP)?;
    let mut out = Vec::with_capacity(alloc, place.height as usize * width)?;
    let counts = table.as_mut_slice();
    let made = eight.as_mut_slice();
    let mut lanes = no_samples();
    let mut done = 0u32;
    while done < place.height {
        let from = done.min(place.height - 8);
        let group = Group {
            place: Rect {
                y: place.y + from,
                height: 8,
                ..place
            },
            rectangle: wanted.rectangle,
            offsets: wanted.offsets,
            marks: &marks,
            k: wanted.k,
            far: Far {
                a_column: far,
                a_move: 0,
            },
        };
        if !rank_together(made, counts, &mut lanes, window, group) {
            return Ok(None);
        }
        push_from(&mut out, made, (done - from) as usize * width)?;
        done = from + 8;
    }
    Ok(Some(out))
}

/// The ranks of a block of results by numbers, where all searches are near.
pub(crate) fn rank_block<P: Grey>(
    alloc: Global,
    window: &Window<P>,
    wanted: Wanted,
    place: Rect,
    far: usize,
) -> Result<Option<Vec<P>>, NoMemory>
    requires tall { 8 ≤ place.height }
    requires short { place.height ≤ 2 ^ 16 }
    requires narrow { place.width ≤ 2 ^ 16 }
    requires inside { place.y + place.height < 2 ^ 32 }
    requires rectangle { IsRectangle wanted.rectangle wanted.offsets.now }
    requires some { 1 ≤ wanted.rectangle.rows }
    requires low { wanted.rectangle.rows ≤ 2 ^ 15 }
    requires few { length wanted.offsets.now < 2 ^ 16 }
    ensures { IfOk result (λ o. IfSome o (λ v. HasRanks P.level wanted.entry.k (seen_at window.now) wanted.entry.offsets.now place v.items)) }
{
    let part = part_under(window, wanted.rectangle, place);
    let found = numbers_of(alloc, window, part)?;
    let Numbered { numbers, levels } = found;
    let count = levels.len();
    if count > 65535 {
        return Ok(None);
    }
    let seen = window_of(window, part, numbers);
    let Some(ranks) = rank_eights(alloc, &seen, wanted, place, count, far)? else {
        return Ok(None);
    };
    let mut out = Vec::with_capacity(alloc, ranks.len())?;
    push_levels(&mut out, &levels, &ranks)?;
    Ok(Some(out))
}
