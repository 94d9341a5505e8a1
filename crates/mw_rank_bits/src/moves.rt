//! What an element sees anew, and what it sees no more, one row further down: the offsets of each column that have none above
//! them, and those that have none below. So a counter takes two steps for each column, and none for each offset.
ghost use Rattle.std.specs.Prelude.{◌≡◌, ℕ, ◌+◌, ◌-◌, ◌*◌, ◌/◌, ◌<◌, ◌≤◌, ◌^◌, length, slice_index, sum_by, vec_len, IfOk};
ghost use Rattle.std.specs.List.{AllByRecursion};
ghost use Rattle.mw_rank_bits.specs.Moves.{weighed, marks_at, marks_before, place_in, HasChanged};

use mw_bits::words::repeated;
use mw_model::NoMemory;
use std::alloc::Global;

/// Places in rows, counted from the row before: those that are seen anew, and those that are seen no more.
#[derive(Drop)]
pub(crate) struct Changes {
    pub entered: Vec<usize>,
    pub left: Vec<usize>,
}

/// Rows of so many columns, and how wide rows are in which their places are looked up.
#[derive(Clone, Copy)]
pub(crate) struct Sheet {
    pub rows: usize,
    pub columns: usize,
    pub wide: usize,
}

/// Adds a place so many times.
fn push_times(places: &mut Vec<usize>, place: usize, count: u64) -> Result<(), NoMemory>
    ensures sum { IfOk result (λ _. (f : ℕ → ℕ) → sum_by f places.new.items ≡ sum_by f places.old.items + count * f place) }
    ensures below { IfOk result (λ _. (n : ℕ) → place < n → AllByRecursion (λ (s : ℕ). s < n) places.old.items → AllByRecursion (λ (s : ℕ). s < n) places.new.items) }
{
    for _i in 0..count {
        places.push(place)?;
    }
    Ok(())
}

/// How often each place stands in the list.
fn marks_of(alloc: Global, places: &[usize], count: usize) -> Result<Vec<u64>, NoMemory>
    requires { AllByRecursion (λ (s : ℕ). s < count) places.now }
    ensures size { IfOk result (λ v. vec_len v ≡ count) }
    ensures sums { IfOk result (λ v. (f : ℕ → ℕ) → weighed (marks_at v.items) f count ≡ sum_by f places.now) }
{
    let mut marks = repeated(alloc, count, 0)?;
    for i in 0..places.len() {
        marks[places[i]] += 1;
    }
    Ok(marks)
}

/// How often a place is marked; past the last, it is not.
#[inline(always)]
fn mark_at(marks: &[u64], t: usize) -> u64
    ensures { result ≡ marks_at marks.now t }
{
    if t < marks.len() { marks[t] } else { 0 }
}

/// How often the place above is marked.
#[inline(always)]
fn mark_above(marks: &[u64], columns: usize, t: usize) -> u64
    ensures { result ≡ marks_before marks.now columns t }
{
    if t < columns {
        0
    } else {
        mark_at(marks, t - columns)
    }
}

/// The place in the wide rows.
#[inline(always)]
fn widened(sheet: Sheet, t: usize) -> usize
    requires some { 0 < sheet.columns }
    requires fits { place_in sheet.columns sheet.wide t < 2 ^ 64 }
    ensures { result ≡ place_in sheet.columns sheet.wide t }
{
    t / sheet.columns * sheet.wide + t % sheet.columns
}

/// The changes of marked places.
fn changes_by_marks(alloc: Global, marks: &[u64], sheet: Sheet) -> Result<Changes, NoMemory>
    requires some { 0 < sheet.columns }
    requires size { length marks.now ≡ sheet.rows * sheet.columns }
    requires room { sheet.rows * sheet.columns + sheet.columns < 2 ^ 64 }
    requires fits { sheet.rows * sheet.wide + sheet.columns < 2 ^ 64 }
    ensures { IfOk result (λ c. HasChanged marks.now sheet.columns sheet.wide (sheet.rows * sheet.wide + sheet.columns) (sheet.rows * sheet.columns + sheet.columns) c.entered.items c.left.items) }
{
    let mut entered = Vec::new(alloc);
    let mut left = Vec::new(alloc);
    for t in 0..marks.len() + sheet.columns {
        let here = mark_at(marks, t);
        let above = mark_above(marks, sheet.columns, t);
        let place = widened(sheet, t);
        push_times(&mut entered, place, above.saturating_sub(here))?;
        push_times(&mut left, place, here.saturating_sub(above))?;
    }
    Ok(Changes { entered, left })
}

/// The changes of the places of an element in rows of so many columns, given the places in the wide rows.
pub(crate) fn changes_of(alloc: Global, places: &[usize], sheet: Sheet) -> Result<Changes, NoMemory>
    requires inside { AllByRecursion (λ (s : ℕ). s < sheet.rows * sheet.columns) places.now }
    requires some { 0 < sheet.columns }
    requires room { sheet.rows * sheet.columns + sheet.columns < 2 ^ 64 }
    requires fits { sheet.rows * sheet.wide + sheet.columns < 2 ^ 64 }
    ensures balance { IfOk result (λ c. (f : ℕ → ℕ) → sum_by f c.entered.items + sum_by (λ t. f (place_in sheet.columns sheet.wide t)) places.now ≡ sum_by f c.left.items + sum_by (λ t. f (place_in sheet.columns sheet.wide t + sheet.wide)) places.now) }
    ensures part { IfOk result (λ c. (f : ℕ → ℕ) → sum_by f c.left.items ≤ sum_by (λ t. f (place_in sheet.columns sheet.wide t)) places.now) }
    ensures entered { IfOk result (λ c. AllByRecursion (λ (s : ℕ). s < sheet.rows * sheet.wide + sheet.columns) c.entered.items) }
    ensures left { IfOk result (λ c. AllByRecursion (λ (s : ℕ). s < sheet.rows * sheet.wide + sheet.columns) c.left.items) }
{
    let marks = marks_of(alloc, places, sheet.rows * sheet.columns)?;
    let made = changes_by_marks(alloc, marks.as_slice(), sheet)?;
    Ok(made)
}
