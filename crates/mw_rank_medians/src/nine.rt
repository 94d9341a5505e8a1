//! The median of nine: three columns of three are put in order, and then the highest of the lowest, the middle of the
//! middle and the lowest of the highest.
ghost use Rattle.std.specs.Prelude.{◌≡◌, ℕ, ◌+◌};
ghost use Rattle.mw_rank_medians.specs.Numbered.{below, lanes_of_three, AreThree, IsNthLevel, middle};

use crate::Vectored;

/// Three vectors, of which each lane is in rising order.
#[derive(Clone, Copy)]
pub(crate) struct Three<V> {
    pub low: V,
    pub middle: V,
    pub high: V,
}

/// Three vectors with each lane in rising order.
#[inline(always)]
pub(crate) fn three_in_order<P: Vectored>(
    a: P::Vector,
    b: P::Vector,
    c: P::Vector,
) -> Three<P::Vector>
    ensures { (i : ℕ) (count : ℕ → ℕ) → ((t : ℕ) → count t ≡ below (P.lane a i) t + below (P.lane b i) t + below (P.lane c i) t) → AreThree count (lanes_of_three P.lane result i) }
{
    let first = P::lower(a, b);
    let second = P::higher(a, b);
    let middle = P::lower(second, c);
    Three {
        low: P::lower(first, middle),
        middle: P::higher(first, middle),
        high: P::higher(second, c),
    }
}

/// The middle one of three in each lane.
#[inline(always)]
fn middle_of_three<P: Vectored>(a: P::Vector, b: P::Vector, c: P::Vector) -> P::Vector
    ensures { (i : ℕ) → P.lane result i ≡ middle (P.lane a i) (P.lane b i) (P.lane c i) }
{
    let low = P::lower(a, b);
    let high = P::higher(a, b);
    P::higher(low, P::lower(high, c))
}

/// The median of three columns of three in each lane.
#[inline(always)]
pub(crate) fn median_of_nine<P: Vectored>(
    a: Three<P::Vector>,
    b: Three<P::Vector>,
    c: Three<P::Vector>,
) -> P::Vector
    ensures { (i : ℕ) (f g h : ℕ → ℕ) → AreThree f (lanes_of_three P.lane a i) → AreThree g (lanes_of_three P.lane b i) → AreThree h (lanes_of_three P.lane c i) → IsNthLevel (λ t. f t + g t + h t) 5 (P.lane result i) }
{
    let low = P::higher(P::higher(a.low, b.low), c.low);
    let middle = middle_of_three::<P>(a.middle, b.middle, c.middle);
    let high = P::lower(P::lower(a.high, b.high), c.high);
    middle_of_three::<P>(low, middle, high)
}
