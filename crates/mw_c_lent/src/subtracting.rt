//! Samples that are subtracted from those of another row, in place.

ghost use Rattle.std.specs.Prelude.{◌≡◌, ℕ, ◌-◌, length, map};
ghost use lib.Lanes.{zip2};

use mw_line::lane::Lanes;

/// The other row's sample less each at its place, stopping at 0, in place.
pub(crate) fn subtract_from<P: Lanes>(row: &mut [P], other: &[P])
    requires { length row.old ≡ length other.now }
    ensures { map P.level row.new ≡ zip2 (λ (m n : ℕ). m - n) (map P.level other.now) (map P.level row.old) }
{
    let mut at = 0usize;
    'by_one: while at < row.len() {
        row[at] = P::subtract(other[at], row[at]);
        at += 1;
    }
}
