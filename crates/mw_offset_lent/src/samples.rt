//! Samples where they stand.
ghost use Rattle.std.specs.Prelude.{◌≡◌, ℕ, ◌+◌, ◌-◌, ◌*◌, ◌<◌, ◌≤◌, ◌^◌, pos, ◌+ℤ◌, ◌≤ℤ◌, length, drop};

use crate::work::Laid;
use mw_line::pixel::Pixel;
use mw_tile_lent::Rect;

/// How many samples of the place come before those that the first result of row y sees.
pub(crate) fn before_row(place: Rect, laid: Laid, y: usize) -> usize
    requires few { y < 2 ^ 32 }
    requires top { pos 1 ≤ℤ (laid.row +ℤ pos y) }
    requires bottom { (laid.row +ℤ pos y) ≤ℤ pos place.height }
    requires left { place.x ≤ laid.tile.x }
    requires across { laid.around.across ≤ place.width }
    ensures { (row : ℕ) → pos row ≡ laid.row +ℤ pos y → result + laid.around.across ≡ row * place.width + (laid.tile.x - place.x) }
{
    let row = (laid.row + y as i64) as usize;
    let ahead = (laid.tile.x - place.x) as usize;
    row * place.width as usize + ahead - laid.around.across
}

/// The samples from a place on.
pub(crate) fn rest_from<P: Pixel>(samples: &[P], from: usize) -> &[P]
    requires { from ≤ length samples.now }
    ensures { result.now ≡ drop from samples.entry.now }
{
    &samples[from..]
}
