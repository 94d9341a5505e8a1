//! The sample of a set.

ghost use Rattle.std.specs.Prelude.{◌≡◌, ◌≤◌, cond, nat_eq};

use std::marker::Model;

/// A sample of a set: 1 where the pixel is in the set, else 0.
#[derive(Clone, Copy, PartialEq, Eq, PartialOrd, Ord, Debug)]
pub struct Bit {
    is_set: bool,
}

impl Model for Bit {
    ghost use Rattle.std.specs.Prelude.{ℕ, cond, nat_eq};

    ghost Value = { ℕ };

    ghost view = { λ b. cond b.is_set 1 0 };

    ghost inverse = { λ n. record { is_set = nat_eq n 1 } };
}

impl Bit {
    /// A pixel of the set.
    pub const SET: Bit = Bit { is_set: true };

    /// A pixel of the set, or one outside it.
    pub fn new(is_set: bool) -> Bit
        ensures { result ≡ cond is_set 1 0 }
    {
        Bit { is_set }
    }

    /// Whether the pixel is of the set.
    pub fn is_set(self) -> bool
        ensures set { result ≡ nat_eq self 1 }
        ensures small { self ≤ 1 }
    {
        self.is_set
    }

    /// 1 or 0.
    pub fn number(self) -> u8
        ensures value { result ≡ self }
        ensures small { result ≤ 1 }
    {
        if self.is_set { 1 } else { 0 }
    }
}
