//! By how many columns the lower one of two rows is shifted, so that they share the most places.
ghost use Rattle.std.specs.Prelude.{◌≡◌, ◌⊎◌, ◌+◌, ◌<◌, ◌≤◌, ◌^◌};
ghost use Rattle.std.specs.List.{AllByRecursion};
ghost use Rattle.mw_offset_lent.specs.Splits.{IsShift};

/// So many columns to either side, and how many places two rows share so.
#[derive(Clone, Copy)]
pub(crate) struct Shift {
    pub left: usize,
    pub right: usize,
    pub shared: usize,
}

/// The number of the first place, from number `from` on, that is not before this one.
fn first_from(all: &[usize], from: usize, place: usize) -> usize {
    for i in from..all.len() {
        if all[i] >= place {
            return i;
        }
    }
    all.len()
}

/// How many of the places have another one so far ahead of them, where they stand in rising order. Any answer is right.
fn shared_count(all: &[usize], ahead: usize) -> usize
    requires { AllByRecursion (λ p. p + ahead < 2 ^ 64) all.now }
{
    let mut count = 0usize;
    let mut at = 0usize;
    for place in all {
        let wanted = *place + ahead;
        at = first_from(all, at, wanted);
        if at < all.len() && all[at] == wanted {
            count = count.saturating_add(1);
        }
    }
    count
}

/// The one by which more is shared.
fn better(a: Shift, b: Shift) -> Shift
    ensures { (result ≡ a) ⊎ (result ≡ b) }
{
    if b.shared > a.shared { b } else { a }
}

/// Whether what a shift shares more, so many times a row, outweighs the blocks of all places that it costs at the rows' ends.
fn is_worth(more: usize, blocks: usize, places: usize) -> bool {
    more.saturating_mul(blocks) > places.saturating_mul(2)
}

/// The least shift by which two rows share the most of their places, among cells in rows of `wide` that are made in so many blocks, or
/// none where that gains less than it costs.
pub(crate) fn best_shift(all: &[usize], wide: usize, blocks: usize) -> Shift
    requires places { AllByRecursion (λ p. p + (wide + 8) < 2 ^ 64) all.now }
    requires wide { 8 ≤ wide }
    requires small { wide < 2 ^ 40 }
    ensures { IsShift result }
{
    let none = Shift {
        left: 0,
        right: 0,
        shared: shared_count(all, wide),
    };
    let mut best = none;
    for columns in 1..9usize {
        let right = Shift {
            left: 0,
            right: columns,
            shared: shared_count(all, wide + columns),
        };
        let left = Shift {
            left: columns,
            right: 0,
            shared: shared_count(all, wide - columns),
        };
        best = better(better(best, right), left);
    }
    if is_worth(best.shared.saturating_sub(none.shared), blocks, all.len()) {
        return best;
    }
    none
}
