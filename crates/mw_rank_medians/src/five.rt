//! The median of 25: five columns of five are put in order, two pairs of them are merged by odd and even places (Batcher
//! 1968), and of the numbers that can still be the median those are kept that the last column leaves.
ghost use Rattle.std.specs.Prelude.{◌≡◌, ℕ, ◌+◌, min, max};
ghost use Rattle.mw_rank_medians.specs.Numbered.{below, lanes_of_two, lanes_of_three, lanes_of_four, lanes_of_five, lanes_of_six, lanes_of_ten, AreFive, AreMiddle, AreTen, IsNthLevel};
ghost use Rattle.mw_rank_medians.specs.Networks.{two_with_three, two_with_two, three_with_three, ten_of, middle_of_four, middle_of_six, low_of_ten, high_of_ten, middle_of_twenty, last_of};

use crate::Vectored;
use crate::nine::{Three, three_in_order};

/// Two vectors, of which each lane is in rising order.
#[derive(Clone, Copy)]
pub(crate) struct Two<V> {
    pub low: V,
    pub high: V,
}

/// Four vectors, of which each lane is in rising order.
#[derive(Clone, Copy)]
pub(crate) struct Four<V> {
    pub first: V,
    pub second: V,
    pub third: V,
    pub fourth: V,
}

/// Five vectors, of which each lane is in rising order.
#[derive(Clone, Copy)]
pub(crate) struct Five<V> {
    pub first: V,
    pub second: V,
    pub third: V,
    pub fourth: V,
    pub fifth: V,
}

/// Six vectors, of which each lane is in rising order.
#[derive(Clone, Copy)]
pub(crate) struct Six<V> {
    pub first: V,
    pub second: V,
    pub third: V,
    pub fourth: V,
    pub fifth: V,
    pub sixth: V,
}

/// Ten vectors, of which each lane is in rising order: those of odd numbers, and those of even ones.
#[derive(Clone, Copy)]
pub(crate) struct Ten<V> {
    pub odd: Five<V>,
    pub even: Five<V>,
}

/// Two vectors with each lane in rising order.
#[inline(always)]
fn exchanged<P: Vectored>(a: P::Vector, b: P::Vector) -> Two<P::Vector>
    ensures low { (i : ℕ) → P.lane result.low i ≡ min (P.lane a i) (P.lane b i) }
    ensures high { (i : ℕ) → P.lane result.high i ≡ max (P.lane a i) (P.lane b i) }
{
    Two {
        low: P::lower(a, b),
        high: P::higher(a, b),
    }
}

/// Two in order merged with three.
#[inline(always)]
fn with_three<P: Vectored>(x: Two<P::Vector>, y: Three<P::Vector>) -> Five<P::Vector>
    ensures { (i : ℕ) → lanes_of_five P.lane result i ≡ two_with_three min max (lanes_of_two P.lane x i) (lanes_of_three P.lane y i) }
{
    let ends = exchanged::<P>(x.low, y.low);
    let odd = exchanged::<P>(ends.high, y.high);
    let even = exchanged::<P>(x.high, y.middle);
    let lower = exchanged::<P>(even.low, odd.low);
    let higher = exchanged::<P>(even.high, odd.high);
    Five {
        first: ends.low,
        second: lower.low,
        third: lower.high,
        fourth: higher.low,
        fifth: higher.high,
    }
}

/// Five vectors with each lane in rising order.
#[inline(always)]
pub(crate) fn five_in_order<P: Vectored>(
    a: P::Vector,
    b: P::Vector,
    c: P::Vector,
    d: P::Vector,
    e: P::Vector,
) -> Five<P::Vector>
    ensures { (i : ℕ) (count : ℕ → ℕ) → ((t : ℕ) → count t ≡ below (P.lane a i) t + below (P.lane b i) t + below (P.lane c i) t + below (P.lane d i) t + below (P.lane e i) t) → AreFive count (lanes_of_five P.lane result i) }
{
    let two = exchanged::<P>(a, b);
    let three = three_in_order::<P>(c, d, e);
    with_three::<P>(two, three)
}

/// Two in order merged with two.
#[inline(always)]
fn with_two<P: Vectored>(x: Two<P::Vector>, y: Two<P::Vector>) -> Four<P::Vector>
    ensures { (i : ℕ) → lanes_of_four P.lane result i ≡ two_with_two min max (lanes_of_two P.lane x i) (lanes_of_two P.lane y i) }
{
    let odd = exchanged::<P>(x.low, y.low);
    let even = exchanged::<P>(x.high, y.high);
    let middle = exchanged::<P>(odd.high, even.low);
    Four {
        first: odd.low,
        second: middle.low,
        third: middle.high,
        fourth: even.high,
    }
}

/// Three in order merged with three.
#[inline(always)]
fn three_merged<P: Vectored>(x: Three<P::Vector>, y: Three<P::Vector>) -> Six<P::Vector>
    ensures { (i : ℕ) → lanes_of_six P.lane result i ≡ three_with_three min max (lanes_of_three P.lane x i) (lanes_of_three P.lane y i) }
{
    let first = Two {
        low: x.low,
        high: x.high,
    };
    let second = Two {
        low: y.low,
        high: y.high,
    };
    let odd = with_two::<P>(first, second);
    let even = exchanged::<P>(x.middle, y.middle);
    let lower = exchanged::<P>(even.low, odd.second);
    let higher = exchanged::<P>(even.high, odd.third);
    Six {
        first: odd.first,
        second: lower.low,
        third: lower.high,
        fourth: higher.low,
        fifth: higher.high,
        sixth: odd.fourth,
    }
}

/// Ten in order, of which the odd numbers and the even ones were merged apart.
#[inline(always)]
fn ten_from<P: Vectored>(odd: Six<P::Vector>, even: Four<P::Vector>) -> Ten<P::Vector>
    ensures { (i : ℕ) → lanes_of_ten P.lane result i ≡ ten_of min max (lanes_of_six P.lane odd i) (lanes_of_four P.lane even i) }
{
    let second = exchanged::<P>(even.first, odd.second);
    let fourth = exchanged::<P>(even.second, odd.third);
    let sixth = exchanged::<P>(even.third, odd.fourth);
    let eighth = exchanged::<P>(even.fourth, odd.fifth);
    Ten {
        odd: Five {
            first: odd.first,
            second: second.high,
            third: fourth.high,
            fourth: sixth.high,
            fifth: eighth.high,
        },
        even: Five {
            first: second.low,
            second: fourth.low,
            third: sixth.low,
            fourth: eighth.low,
            fifth: odd.sixth,
        },
    }
}

/// Five in order merged with five.
#[inline(always)]
pub(crate) fn five_merged<P: Vectored>(x: Five<P::Vector>, y: Five<P::Vector>) -> Ten<P::Vector>
    ensures { (i : ℕ) (f g : ℕ → ℕ) → AreFive f (lanes_of_five P.lane x i) → AreFive g (lanes_of_five P.lane y i) → AreTen (λ t. f t + g t) (lanes_of_ten P.lane result i) }
{
    let odd_x = Three {
        low: x.first,
        middle: x.third,
        high: x.fifth,
    };
    let odd_y = Three {
        low: y.first,
        middle: y.third,
        high: y.fifth,
    };
    let even_x = Two {
        low: x.second,
        high: x.fourth,
    };
    let even_y = Two {
        low: y.second,
        high: y.fourth,
    };
    let odd = three_merged::<P>(odd_x, odd_y);
    let even = with_two::<P>(even_x, even_y);
    ten_from::<P>(odd, even)
}

/// Numbers 2 and 3 of two and two in order.
#[inline(always)]
fn middle_of_two<P: Vectored>(x: Two<P::Vector>, y: Two<P::Vector>) -> Two<P::Vector>
    ensures { (i : ℕ) → lanes_of_two P.lane result i ≡ middle_of_four min max (lanes_of_two P.lane x i) (lanes_of_two P.lane y i) }
{
    let lower = P::higher(x.low, y.low);
    let higher = P::lower(x.high, y.high);
    exchanged::<P>(lower, higher)
}

/// Numbers 3 and 4 of three and three in order.
#[inline(always)]
fn middle_of_three<P: Vectored>(x: Three<P::Vector>, y: Three<P::Vector>) -> Two<P::Vector>
    ensures { (i : ℕ) → lanes_of_two P.lane result i ≡ middle_of_six min max (lanes_of_three P.lane x i) (lanes_of_three P.lane y i) }
{
    let first = Two {
        low: x.low,
        high: x.high,
    };
    let second = Two {
        low: y.low,
        high: y.high,
    };
    let odd = middle_of_two::<P>(first, second);
    let even = exchanged::<P>(x.middle, y.middle);
    let low = P::higher(even.low, odd.low);
    let high = P::lower(even.high, odd.high);
    Two { low, high }
}

/// Numbers 4, 5 and 6 of five and five in order.
#[inline(always)]
fn lower_of_five<P: Vectored>(x: Five<P::Vector>, y: Five<P::Vector>) -> Three<P::Vector>
    ensures { (i : ℕ) → lanes_of_three P.lane result i ≡ low_of_ten min max (lanes_of_five P.lane x i) (lanes_of_five P.lane y i) }
{
    let odd_x = Three {
        low: x.first,
        middle: x.third,
        high: x.fifth,
    };
    let odd_y = Three {
        low: y.first,
        middle: y.third,
        high: y.fifth,
    };
    let even_x = Two {
        low: x.second,
        high: x.fourth,
    };
    let even_y = Two {
        low: y.second,
        high: y.fourth,
    };
    let odd = middle_of_three::<P>(odd_x, odd_y);
    let even = middle_of_two::<P>(even_x, even_y);
    let low = P::lower(even.low, odd.low);
    let middle = P::higher(even.low, odd.low);
    let high = P::lower(even.high, odd.high);
    Three { low, middle, high }
}

/// Numbers 5, 6 and 7 of five and five in order.
#[inline(always)]
fn higher_of_five<P: Vectored>(x: Five<P::Vector>, y: Five<P::Vector>) -> Three<P::Vector>
    ensures { (i : ℕ) → lanes_of_three P.lane result i ≡ high_of_ten min max (lanes_of_five P.lane x i) (lanes_of_five P.lane y i) }
{
    let odd_x = Three {
        low: x.first,
        middle: x.third,
        high: x.fifth,
    };
    let odd_y = Three {
        low: y.first,
        middle: y.third,
        high: y.fifth,
    };
    let even_x = Two {
        low: x.second,
        high: x.fourth,
    };
    let even_y = Two {
        low: y.second,
        high: y.fourth,
    };
    let odd = middle_of_three::<P>(odd_x, odd_y);
    let even = middle_of_two::<P>(even_x, even_y);
    let low = P::higher(even.low, odd.low);
    let middle = P::lower(even.high, odd.high);
    let high = P::higher(even.high, odd.high);
    Three { low, middle, high }
}

/// Numbers 8 to 13 of ten and ten in order.
#[inline(always)]
fn middle_of_ten<P: Vectored>(x: Ten<P::Vector>, y: Ten<P::Vector>) -> Six<P::Vector>
    ensures { (i : ℕ) → lanes_of_six P.lane result i ≡ middle_of_twenty min max (lanes_of_ten P.lane x i) (lanes_of_ten P.lane y i) }
{
    let odd = higher_of_five::<P>(x.odd, y.odd);
    let even = lower_of_five::<P>(x.even, y.even);
    let first = exchanged::<P>(even.low, odd.low);
    let third = exchanged::<P>(even.middle, odd.middle);
    let fifth = exchanged::<P>(even.high, odd.high);
    Six {
        first: first.low,
        second: first.high,
        third: third.low,
        fourth: third.high,
        fifth: fifth.low,
        sixth: fifth.high,
    }
}

/// Number 13 of 25, by numbers 8 to 13 of twenty and the other five in order.
#[inline(always)]
fn with_last<P: Vectored>(x: Six<P::Vector>, y: Five<P::Vector>) -> P::Vector
    ensures { (i : ℕ) → P.lane result i ≡ last_of min max (lanes_of_six P.lane x i) (lanes_of_five P.lane y i) }
{
    let first = P::higher(x.first, y.fifth);
    let second = P::higher(x.second, y.fourth);
    let third = P::higher(x.third, y.third);
    let fourth = P::higher(x.fourth, y.second);
    let fifth = P::higher(x.fifth, y.first);
    let front = P::lower(first, second);
    let middle = P::lower(third, fourth);
    let back = P::lower(fifth, x.sixth);
    P::lower(P::lower(front, middle), back)
}

/// The median of two pairs of columns of five and one column in each lane.
#[inline(always)]
pub(crate) fn median_of_tens<P: Vectored>(
    x: Ten<P::Vector>,
    y: Ten<P::Vector>,
    z: Five<P::Vector>,
) -> P::Vector
    ensures { (i : ℕ) (f g h : ℕ → ℕ) → AreTen f (lanes_of_ten P.lane x i) → AreTen g (lanes_of_ten P.lane y i) → AreFive h (lanes_of_five P.lane z i) → IsNthLevel (λ t. f t + g t + h t) 13 (P.lane result i) }
{
    let middle = middle_of_ten::<P>(x, y);
    with_last::<P>(middle, z)
}
