//! A row merged into another that lies beside it, shifted.
ghost use Rattle.std.specs.Prelude.{◌≡◌, ℕ, ◌+◌, ◌-◌, ◌<◌, ◌≤◌, ◌+ℤ◌, pos, length, slice_index_or, slice_get};
ghost use Rattle.mw_lane.specs.Shifted.{merge_at, at_place};

use super::combine_rows;
use mw_pixel::{Extremum, Pixel};

/// Merges the row from `ahead` on into the samples from `behind` on.
#[inline]
fn combine_part<P: Pixel, E: Extremum<P>>(row: &[P], ahead: usize, behind: usize, out: &mut [P])
    ensures before { (x : ℕ) (d : P) → x < behind → slice_index_or out.new x d ≡ slice_index_or out.old x d }
    ensures after { (x : ℕ) (d : P) → behind ≤ x → x < length out.old → slice_index_or out.new x d ≡ merge_at E.merge (slice_index_or out.old x d) (slice_get row.now (x - behind + ahead)) }
{
    if ahead < row.len() && behind < out.len() {
        let rest = row.len() - ahead;
        let room = out.len() - behind;
        let count = rest.min(room);
        combine_rows::<P, E>(&mut out[behind..behind + count], &row[ahead..ahead + count]);
    }
}

/// Merges into each sample the row's sample at the place `shift` further on, where the row has that place.
pub fn combine_shifted<P: Pixel, E: Extremum<P>>(row: &[P], shift: i64, out: &mut [P])
    ensures { (x : ℕ) (d : P) → x < length out.old → slice_index_or out.new x d ≡ merge_at E.merge (slice_index_or out.old x d) (at_place row.now (shift +ℤ pos x)) }
{
    let away = shift.unsigned_abs() as usize;
    if shift < 0 {
        combine_part::<P, E>(row, 0, away, out);
    } else {
        combine_part::<P, E>(row, away, 0, out);
    }
}
