//! The runs of two rows that follow one another, united where they touch.

ghost use Rattle.std.specs.Prelude.{◌≡◌, ℕ, ◌+◌, ◌<◌, ◌≤◌, ◌^◌, List, length, true, false};
ghost use Rattle.mw_geodesic_runs.specs.declared.runs.Run.{Run};
ghost use Rattle.mw_geodesic_runs.specs.Forests.{IsForest, HasJoinedIf};
ghost use Rattle.mw_geodesic_runs.specs.Rows.{Overlap, AreTwoRows};
ghost use Rattle.mw_geodesic_runs.specs.Touching.{AreUnited};

use crate::forest::join;
use crate::runs::Run;

/// Whether two runs of rows that follow one another touch.
#[inline(always)]
fn overlap(a: Run, b: Run, reach: u32) -> bool
    requires { reach ≤ 1 }
    ensures yes { result ≡ true → Overlap reach a b }
    ensures no { result ≡ false → Overlap reach a b → ⊥ }
{
    let first = u32::from(b.first);
    let end = u32::from(a.end) + reach;
    if first >= end {
        return false;
    }
    u32::from(a.first) < u32::from(b.end) + reach
}

/// Unites the numbers of two runs of rows that follow one another, if they touch.
#[inline(always)]
fn unite_overlapping(parent: &mut [u32], a: Run, i: usize, b: Run, j: usize, reach: u32)
    requires forest { IsForest parent.old }
    requires few { length parent.old < 2 ^ 32 }
    requires order { i < j }
    requires within { j < length parent.old }
    requires reach { reach ≤ 1 }
    ensures forest { IsForest parent.new }
    ensures joined { HasJoinedIf (Overlap reach a b) parent.old i j parent.new }
{
    if overlap(a, b, reach) {
        join(parent, i as u32, j as u32);
    }
}

/// Unites the runs of a row with those of the row above that they touch, which have the numbers from `above` on, and their own
/// behind them: two of them go along the rows, the one that ends first before the other.
pub(crate) fn unite_rows(parent: &mut [u32], above: usize, upper: &[Run], lower: &[Run], reach: u32)
    requires forest { IsForest parent.old }
    requires few { length parent.old < 2 ^ 32 }
    requires within { above + length upper.now + length lower.now ≤ length parent.old }
    requires reach { reach ≤ 1 }
    ensures forest { IsForest parent.new }
    ensures united { (runs : List Run) (y : ℕ) → AreTwoRows runs y above upper.now lower.now → AreUnited reach runs 0 (above + length upper.now) parent.old → AreUnited reach runs 0 (above + length upper.now + length lower.now) parent.new }
{
    let below = above + upper.len();
    let mut i = 0;
    let mut j = 0;
    'along: while i < upper.len() && j < lower.len() {
        let (a, b) = (upper[i], lower[j]);
        unite_overlapping(parent, a, above + i, b, below + j, reach);
        if a.end < b.end {
            i += 1;
        } else {
            j += 1;
        }
    }
}
