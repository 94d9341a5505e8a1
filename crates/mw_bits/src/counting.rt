//! The volume of a set: how many pixels it has.
ghost use Rattle.std.specs.Prelude.{◌≡◌, ◌*◌, length, sum};

use crate::held::words_of;
use mw_bits_rows::count_bits;
use mw_offset::pixel::Bit;
use mw_offset::tile::Window;

/// The sum of all samples, which is the number of pixels in the set.
pub fn count(set: &Window<Bit>) -> u64
    ensures value { result ≡ sum set.now.cells }
    ensures size { length set.now.cells ≡ set.now.place.height * set.now.place.width }
{
    count_bits(words_of(set))
}
