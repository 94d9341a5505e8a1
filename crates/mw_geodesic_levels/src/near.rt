//! The samples that are near one.

ghost use Rattle.std.specs.Prelude.{◌≡◌, ℕ, ◌+◌, ◌*◌, ◌<◌, ◌≤◌, length};
ghost use Rattle.mw_geodesic_levels.specs.Levels.{level_numbered, IsNearby, IsHighest};

use crate::frame::Frame;
use crate::samples::{at, greater};
use mw_pixel::Pixel;

/// How many columns to both sides the places of row v are near one of row y: one, or none.
#[inline(always)]
pub fn reach(frame: Frame, y: u32, v: u32) -> u32
    ensures small { result ≤ 1 }
    ensures near { (x u : ℕ) → IsNearby frame.corners x y u v → (x ≤ u + result) × (u ≤ x + result) }
    ensures back { y ≤ v + 1 → v ≤ y + 1 → (x u : ℕ) → x ≤ u + result → u ≤ x + result → IsNearby frame.corners x y u v }
{
    if frame.corners {
        return 1;
    }
    if y == v {
        return 1;
    }
    0
}

/// The row above, or the first one.
#[inline(always)]
pub fn above(y: u32) -> u32
    ensures near { y ≤ result + 1 }
    ensures within { result ≤ y }
    ensures each { (v : ℕ) → y ≤ v + 1 → v < y → v ≡ result }
{
    y.saturating_sub(1)
}

/// The row below, or the last one.
#[inline(always)]
pub fn below(frame: Frame, y: u32) -> u32
    requires { y < frame.height }
    ensures near { result ≤ y + 1 }
    ensures within { y ≤ result }
    ensures inside { result < frame.height }
    ensures each { (v : ℕ) → v ≤ y + 1 → y < v → v < frame.height → v ≡ result }
{
    (y + 1).min(frame.height - 1)
}

/// The greatest of the samples of row v that are no more than `reach` columns away from column x.
#[inline(always)]
pub(crate) fn highest<P: Pixel>(samples: &[P], frame: Frame, x: u32, v: u32, reach: u32) -> P
    requires size { length samples.now ≡ frame.height * frame.width }
    requires column { x < frame.width }
    requires row { v < frame.height }
    requires small { reach ≤ 1 }
    ensures { IsHighest frame (level_numbered P.level samples.now) x v reach (P.level result) }
{
    let left = at(samples, frame.number(x.saturating_sub(reach), v));
    let middle = at(samples, frame.number(x, v));
    let right = at(samples, frame.number((x + reach).min(frame.width - 1), v));
    greater(middle, greater(left, right))
}
