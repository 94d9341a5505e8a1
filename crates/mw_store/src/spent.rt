//! Dropping values that are released and that no pending entry needs.

ghost use Rattle.std.specs.Prelude.{◌≡◌, ◌<◌, ◌&&◌, ℕ, length, None, slice_index_or, if◌then◌else◌};
ghost use Rattle.std.specs.List.{AllByRecursion};
ghost use Rattle.mw_model.specs.Values.{option_list};
ghost use Rattle.mw_store.specs.Wanted.{is_among, is_at, spent_by};

use crate::kept::StoredValue;
use mw_model::{Inputs, Outcome};

/// Drops what stands in a place.
fn clear(place: &mut Option<StoredValue>)
    ensures { place.new ≡ None }
{
    *place = None;
}

/// Drops the value of an input, if there is one and it is spent.
pub fn drop_one(
    outcomes: &[Outcome],
    wanted: &[u32],
    kept: &mut [Option<StoredValue>],
    input: Option<u32>,
)
    requires counts { length wanted.now ≡ length outcomes.now }
    requires columns { length kept.old ≡ length outcomes.now }
    requires within { AllByRecursion (λ i. i < length outcomes.now) (option_list input) }
    ensures { (t : ℕ) → slice_index_or kept.new t None ≡ (if is_at input t && spent_by outcomes.now wanted.now t then None else slice_index_or kept.old t None) }
{
    if let Some(t) = input {
        if outcomes[t as usize].is_released() && wanted[t as usize] == 0 {
            clear(&mut kept[t as usize]);
        }
    }
}

/// Drops the values of the inputs that are spent.
pub fn drop_inputs(
    outcomes: &[Outcome],
    wanted: &[u32],
    kept: &mut [Option<StoredValue>],
    inputs: Inputs,
)
    requires counts { length wanted.now ≡ length outcomes.now }
    requires columns { length kept.old ≡ length outcomes.now }
    requires a { AllByRecursion (λ i. i < length outcomes.now) (option_list inputs.a) }
    requires b { AllByRecursion (λ i. i < length outcomes.now) (option_list inputs.b) }
    requires c { AllByRecursion (λ i. i < length outcomes.now) (option_list inputs.c) }
    ensures { (t : ℕ) → slice_index_or kept.new t None ≡ (if is_among inputs t && spent_by outcomes.now wanted.now t then None else slice_index_or kept.old t None) }
{
    drop_one(outcomes, wanted, kept, inputs.a);
    drop_one(outcomes, wanted, kept, inputs.b);
    drop_one(outcomes, wanted, kept, inputs.c);
}

/// Drops each value that is spent.
pub fn drop_spent(outcomes: &[Outcome], wanted: &[u32], kept: &mut [Option<StoredValue>])
    requires counts { length wanted.now ≡ length outcomes.now }
    requires columns { length kept.old ≡ length outcomes.now }
    ensures { (t : ℕ) → slice_index_or kept.new t None ≡ (if spent_by outcomes.now wanted.now t then None else slice_index_or kept.old t None) }
{
    for (t, outcome) in outcomes.iter().enumerate() {
        if outcome.is_released() && wanted[t] == 0 {
            clear(&mut kept[t]);
        }
    }
}
