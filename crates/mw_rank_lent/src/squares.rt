//! Squares of which medians are known, with their origin in the middle.
ghost use Rattle.std.specs.Prelude.{◌≡◌, ℕ, ◌<◌, ◌↔◌, ◌⊎◌, pos, ◌+ℤ◌, IfNone, IfSome, IsTrue};
ghost use Rattle.mw_rank_medians.specs.Squares.{offset_rows};
ghost use Rattle.mw_rank_lent.specs.Middles.{IsMedianAbout, IsMiddle, offsets_about, square_offsets};

use mw_model::Offset;

/// A square of offsets about its origin, and the number of its median.
#[derive(Clone, Copy)]
pub(crate) struct Square {
    /// How far it reaches to each side.
    pub reach: u32,
    pub side: u32,
    pub k: u32,
    pub first: Offset,
}

/// Whether a step is so many places from another.
fn is_ahead(from: i16, to: i16, by: usize) -> bool
    requires { by < 256 }
    ensures { IsTrue result ↔ (to ≡ from +ℤ pos by) }
{
    i64::from(to) == i64::from(from) + by as i64
}

/// Whether the offset stands so many columns to the right of the first, and rows below it.
fn stands_at(first: Offset, offset: Offset, column: usize, row: usize) -> bool
    requires across { column < 256 }
    requires down { row < 256 }
    ensures { IsTrue result ↔ ((offset.dx ≡ first.dx +ℤ pos column) × (offset.dy ≡ first.dy +ℤ pos row)) }
{
    is_ahead(first.dx, offset.dx, column) && is_ahead(first.dy, offset.dy, row)
}

/// Whether the offsets are a square of that side from the first on, row after row.
fn is_square(offsets: &[Offset], first: Offset, side: usize) -> bool
    requires { side < 256 }
    ensures some { IsTrue result → offsets.now ≡ offset_rows first side side }
    ensures all { offsets.now ≡ offset_rows first side side → IsTrue result }
{
    if offsets.len() != side * side {
        return false;
    }
    for row in 0..side {
        for column in 0..side {
            if !stands_at(first, offsets[row * side + column], column, row) {
                return false;
            }
        }
    }
    true
}

/// The square of that reach, if its median has this number and the offsets are it.
fn middle_of(offsets: &[Offset], reach: u32, k: u32) -> Option<Square>
    requires { (reach ≡ 1) × (k ≡ 5) ⊎ (reach ≡ 2) × (k ≡ 13) }
    ensures some { IfSome result (λ s. IsMiddle s × (offsets.now ≡ square_offsets s) × (s.k ≡ k)) }
    ensures none { IfNone result (offsets.now ≡ offsets_about reach → ⊥) }
{
    let side = 2 * reach + 1;
    let before = -(reach as i16);
    let first = Offset {
        dx: before,
        dy: before,
    };
    if !is_square(offsets, first, side as usize) {
        return None;
    }
    Some(Square {
        reach,
        side,
        k,
        first,
    })
}

/// The square that the offsets are, if its median has this number and is known.
pub(crate) fn square_about(offsets: &[Offset], k: u32) -> Option<Square>
    ensures some { IfSome result (λ s. IsMiddle s × (offsets.now ≡ square_offsets s) × (s.k ≡ k)) }
    ensures none { IfNone result ((reach : ℕ) → IsMedianAbout reach k offsets.now → ⊥) }
{
    match k {
        5 => middle_of(offsets, 1, k),
        13 => middle_of(offsets, 2, k),
        _ => None,
    }
}
