//! What a sample is: a level from 0 to the top of its type.

ghost use Rattle.std.specs.Prelude.{◌≡◌, ◌↔◌, ℕ, ◌≤◌, IfSome, IsSome};

use crate::Bit;

/// One sample.
pub trait Pixel: Copy + Eq + Ord + Drop {
    ghost level: { Self → ℕ };

    ghost top_level: { ℕ };

    ghost TOP: { Self };

    /// The sample of the greatest level: 255, 65535 or 1.
    const TOP: Self;

    /// The level of the sample.
    fn value(self) -> u16
        ensures level { result ≡ level self }
        ensures small { result ≤ top_level };

    /// The sample of a level; None for a level over the top.
    fn of(wanted: u16) -> Option<Self>
        ensures level { IfSome result (λ p. level p ≡ wanted) }
        ensures fits { IsSome result ↔ (wanted ≤ top_level) };

    ghost top_is_top: { level TOP ≡ top_level };

    ghost level_is_injective: { (a b : Self) → level a ≡ level b → a ≡ b };

    ghost clone_is_same: { (a b : Self) → Self.is_clone a b → b ≡ a };
}

impl Pixel for u8 {
    ghost level = { λ p. p };

    ghost top_level = { 255 };

    ghost TOP = { 255 };

    const TOP: u8 = 255;

    ghost use Rattle.std.specs.Prelude.{refl};

    ghost top_is_top = { refl };

    ghost level_is_injective = { λ a b e. e };

    ghost clone_is_same = { λ a b e. e };

    #[inline(always)]
    fn value(self) -> u16 {
        u16::from(self)
    }

    #[inline(always)]
    fn of(wanted: u16) -> Option<Self> {
        if wanted <= 255 {
            Some(wanted as u8)
        } else {
            None
        }
    }
}

impl Pixel for u16 {
    ghost level = { λ p. p };

    ghost top_level = { 65535 };

    ghost TOP = { 65535 };

    const TOP: u16 = 65535;

    ghost use Rattle.std.specs.Prelude.{refl};

    ghost top_is_top = { refl };

    ghost level_is_injective = { λ a b e. e };

    ghost clone_is_same = { λ a b e. e };

    #[inline(always)]
    fn value(self) -> u16 {
        self
    }

    #[inline(always)]
    fn of(wanted: u16) -> Option<Self> {
        Some(wanted)
    }
}

impl Pixel for Bit {
    ghost level = { λ p. p };

    ghost top_level = { 1 };

    ghost TOP = { 1 };

    const TOP: Bit = Bit::SET;

    ghost use Rattle.std.specs.Prelude.{refl};

    ghost top_is_top = { refl };

    ghost level_is_injective = { λ a b e. e };

    ghost clone_is_same = { λ a b e. e };

    #[inline(always)]
    fn value(self) -> u16 {
        u16::from(self.number())
    }

    #[inline(always)]
    fn of(wanted: u16) -> Option<Self> {
        match wanted {
            0 => Some(Bit::new(false)),
            1 => Some(Bit::new(true)),
            _ => None,
        }
    }
}
