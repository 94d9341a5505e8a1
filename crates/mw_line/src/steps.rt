//! The count of the samples that were combined.
//!
//! The passes over a line know neither the type of their samples nor the extremum: they have a `Counted` value, and the
//! one thing that it does with two samples counts itself. So no pass can combine samples without counting it.
ghost use Rattle.std.specs.Prelude.{◌≡◌, ℕ, ◌+◌, ◌<◌, ◌^◌};

use mw_tile::pixel::{Extremum, Pixel};
use std::marker::PhantomData;

/// How many times two samples were combined.
#[derive(Clone, Copy, PartialEq, Eq, Debug)]
pub struct Steps {
    pub count: u64,
}

/// What combines two samples, and counts it.
pub(crate) trait Counted<P> {
    ghost merge: { P → P → P };

    ghost count: { Self → ℕ };

    fn combine(&mut self, a: P, b: P) -> P
        requires { count self.old + 1 < 2 ^ 64 }
        ensures value { result ≡ merge a b }
        ensures counted { count self.new ≡ count self.old + 1 };

    ghost commutes: { (a b : P) → merge a b ≡ merge b a };

    ghost associates: { (a b c : P) → merge (merge a b) c ≡ merge a (merge b c) };

    ghost is_idempotent: { (a : P) → merge a a ≡ a };
}

/// An extremum with the count of its uses.
pub(crate) struct Tally<E> {
    pub(crate) count: u64,
    pub(crate) extremum: PhantomData<E>,
}

impl<P: Pixel, E: Extremum<P>> Counted<P> for Tally<E> {
    ghost merge = { E.merge };

    ghost count = { λ t. t.count };

    ghost commutes = { E.commutes };

    ghost associates = { E.associates };

    ghost is_idempotent = { E.is_idempotent };

    #[inline(always)]
    fn combine(&mut self, a: P, b: P) -> P {
        self.count += 1;
        E::combine(a, b)
    }
}
