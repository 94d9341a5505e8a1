//! Questions about how an entry stands.

ghost use Rattle.std.specs.Prelude.{◌≡◌, count_by, if◌then◌else◌};
ghost use Rattle.mw_model.specs.Refusals as words;

use mw_model::Outcome;

/// How many of them are pending.
pub fn count_pending(outcomes: &[Outcome]) -> usize
    ensures { result ≡ count_by words.is_pending outcomes.now }
{
    outcomes.iter().filter(|o| o.is_pending()).count()
}

/// What one more entry adds to the count.
pub fn one_if_pending(outcome: Outcome) -> usize
    ensures { result ≡ (if words.is_pending outcome then 1 else 0) }
{
    if outcome.is_pending() { 1 } else { 0 }
}
