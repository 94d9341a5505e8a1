//! Columns that are in order already, some places further on: what one vector has of them and what the next one has.
ghost use Rattle.mw_rank_medians.specs.Ahead.{IsAhead};
ghost use Rattle.mw_rank_medians.specs.Numbered.{lanes_of_three, lanes_of_five, lanes_of_ten};

use crate::Vectored;
use crate::five::{Five, Ten};
use crate::nine::Three;

/// Columns of three, one further on.
#[inline(always)]
pub(crate) fn three_one_ahead<P: Vectored>(
    here: Three<P::Vector>,
    next: Three<P::Vector>,
) -> Three<P::Vector>
    ensures { IsAhead (lanes_of_three P.lane) P.WIDTH 1 here next result }
{
    Three {
        low: P::one_ahead(here.low, next.low),
        middle: P::one_ahead(here.middle, next.middle),
        high: P::one_ahead(here.high, next.high),
    }
}

/// Columns of three, two further on.
#[inline(always)]
pub(crate) fn three_two_ahead<P: Vectored>(
    here: Three<P::Vector>,
    next: Three<P::Vector>,
) -> Three<P::Vector>
    ensures { IsAhead (lanes_of_three P.lane) P.WIDTH 2 here next result }
{
    Three {
        low: P::two_ahead(here.low, next.low),
        middle: P::two_ahead(here.middle, next.middle),
        high: P::two_ahead(here.high, next.high),
    }
}

/// Columns of five, one further on.
#[inline(always)]
pub(crate) fn five_one_ahead<P: Vectored>(
    here: Five<P::Vector>,
    next: Five<P::Vector>,
) -> Five<P::Vector>
    ensures { IsAhead (lanes_of_five P.lane) P.WIDTH 1 here next result }
{
    Five {
        first: P::one_ahead(here.first, next.first),
        second: P::one_ahead(here.second, next.second),
        third: P::one_ahead(here.third, next.third),
        fourth: P::one_ahead(here.fourth, next.fourth),
        fifth: P::one_ahead(here.fifth, next.fifth),
    }
}

/// Columns of five, two further on.
#[inline(always)]
fn five_two_ahead<P: Vectored>(here: Five<P::Vector>, next: Five<P::Vector>) -> Five<P::Vector>
    ensures { IsAhead (lanes_of_five P.lane) P.WIDTH 2 here next result }
{
    Five {
        first: P::two_ahead(here.first, next.first),
        second: P::two_ahead(here.second, next.second),
        third: P::two_ahead(here.third, next.third),
        fourth: P::two_ahead(here.fourth, next.fourth),
        fifth: P::two_ahead(here.fifth, next.fifth),
    }
}

/// Columns of five, four further on.
#[inline(always)]
pub(crate) fn five_four_ahead<P: Vectored>(
    here: Five<P::Vector>,
    next: Five<P::Vector>,
) -> Five<P::Vector>
    ensures { IsAhead (lanes_of_five P.lane) P.WIDTH 4 here next result }
{
    Five {
        first: P::four_ahead(here.first, next.first),
        second: P::four_ahead(here.second, next.second),
        third: P::four_ahead(here.third, next.third),
        fourth: P::four_ahead(here.fourth, next.fourth),
        fifth: P::four_ahead(here.fifth, next.fifth),
    }
}

/// Pairs of columns of five, two further on.
#[inline(always)]
pub(crate) fn ten_two_ahead<P: Vectored>(
    here: Ten<P::Vector>,
    next: Ten<P::Vector>,
) -> Ten<P::Vector>
    ensures { IsAhead (lanes_of_ten P.lane) P.WIDTH 2 here next result }
{
    Ten {
        odd: five_two_ahead::<P>(here.odd, next.odd),
        even: five_two_ahead::<P>(here.even, next.even),
    }
}
