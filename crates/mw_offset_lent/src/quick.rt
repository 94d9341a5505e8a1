//! When it is sooner to merge each offset than to grow runs.

use mw_model::Offset;

/// How many offsets a run has, on an average, from which on it is sooner to grow runs.
const LONG: usize = 6;

/// Whether two offsets are neighbours in a row.
fn are_beside(a: Offset, b: Offset) -> bool {
    a.dy == b.dy && a.dx.abs_diff(b.dx) == 1
}

/// Whether the runs of these offsets are short. Any answer is right.
pub fn is_quick(offsets: &[Offset]) -> bool {
    let mut runs = 0usize;
    for i in 0..offsets.len() {
        if i == 0 || !are_beside(offsets[i - 1], offsets[i]) {
            runs = runs.saturating_add(1);
        }
    }
    offsets.len() <= runs.saturating_mul(LONG)
}
