//! Which of eight lanes see a row: a lane is the row of results as many rows above the last, and it sees as many rows of
//! samples as the element has. So the marks of the lanes for each row stand in one list, those of the next row one place on.
ghost use Rattle.std.specs.Prelude.{◌≡◌, ℕ, ◌+◌, ◌<◌, ◌≤◌, length, slice_index_or, IfOk};
ghost use Rattle.mw_rank_rows.specs.Columns.{total};
ghost use Rattle.mw_rank_rows.specs.Rectangles.{AreLaneMarks};

use crate::vectors::{lanes_at, plus};
use mw_model::NoMemory;
use std::alloc::Global;
use std::simd::Simd;
use std::simd::prelude::*;

/// The marks of eight lanes under an element of so many rows.
pub(crate) fn marks_of(alloc: Global, rows: usize) -> Result<Vec<u16>, NoMemory>
    requires { rows < 65536 }
    ensures { IfOk result (λ v. AreLaneMarks rows v.items) }
{
    let count = rows + 14;
    let mut marks = Vec::with_capacity(alloc, count)?;
    for i in 0..count {
        marks.push(u16::from(i >= 7 && i < rows + 7))?;
    }
    Ok(marks)
}

/// How many of the first rows each lane sees.
pub(crate) fn sum_of_marks(marks: &[u16], rows: usize) -> Simd<u16, 8>
    requires room { rows + 7 ≤ length marks.now }
    requires few { rows < 65536 }
    requires ones { (p : ℕ) → slice_index_or marks.now p 0 ≤ 1 }
    ensures size { length result ≡ 8 }
    ensures lanes { (j : ℕ) → j < 8 → slice_index_or result j 0 ≡ total (λ i. slice_index_or marks.now (i + j) 0) rows }
{
    let mut all = Simd::<u16, 8>::splat(0);
    for i in 0..rows {
        all = plus(all, lanes_at(marks, i));
    }
    all
}
