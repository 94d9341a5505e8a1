//! Rows of sets.
ghost use Rattle.std.specs.Prelude.{◌≡◌, ℕ, ◌-◌};

use super::Lanes;
use mw_pixel::Bit;

impl Lanes for Bit {
    ghost use Rattle.std.specs.Prelude.{◌-◌};
    ghost use Rattle.std.proofs.Common.{refl};

    ghost difference = { λ a b. a - b };

    ghost level_of_difference = { λ a b. refl };

    #[inline(always)]
    fn subtract(a: Bit, b: Bit) -> Bit {
        Bit::new(a.is_set() && !b.is_set())
    }
}
