//! How many pending entries have each ticket as an input. An entry that has it twice counts once.

ghost use Rattle.std.specs.Prelude.{◌≡◌, ◌≤◌, ◌<◌, ◌+◌, ◌&&◌, ℕ, true, false, length, slice_index_or};
ghost use Rattle.std.specs.List.{AllByRecursion};
ghost use Rattle.mw_model.specs.declared.limits.TheConstants.{ENTRY_LIMIT};
ghost use Rattle.mw_model.specs.Values.{option_list};
ghost use Rattle.mw_store.specs.Stored.{InputsBelow};
ghost use Rattle.mw_store.specs.Wanted.{is_among, is_at, one_if, wanted_by};

use mw_model::{Inputs, Outcome, Submission};

/// Whether two inputs are the same ticket.
fn is_same(a: Option<u32>, b: Option<u32>) -> bool
    ensures same { result ≡ true → a ≡ b }
    ensures other { result ≡ false → (t : ℕ) → (is_at a t && is_at b t) ≡ false }
{
    match (a, b) {
        (Some(a), Some(b)) => a == b,
        _ => false,
    }
}

/// Whether an entry counts for its second and for its third input: one that stood before counts no more.
fn counts_for(waits: bool, inputs: Inputs) -> (bool, bool)
    ensures { (t : ℕ) → one_if (waits && is_at inputs.a t) + one_if (result.0 && is_at inputs.b t) + one_if (result.1 && is_at inputs.c t) ≡ one_if (waits && is_among inputs t) }
{
    let second = is_same(inputs.a, inputs.b);
    let third = is_same(inputs.a, inputs.c);
    let last = is_same(inputs.b, inputs.c);
    (waits && !second, waits && !third && !last)
}

/// Counts an entry for an input, if there is one and the entry counts.
fn raise(counts: bool, wanted: &mut [u32], input: Option<u32>)
    requires within { AllByRecursion (λ i. i < length wanted.old) (option_list input) }
    requires small { (t : ℕ) → slice_index_or wanted.old t 0 < 4294967295 }
    ensures { (t : ℕ) → slice_index_or wanted.new t 0 ≡ slice_index_or wanted.old t 0 + one_if (counts && is_at input t) }
{
    if let (true, Some(t)) = (counts, input) {
        wanted[t as usize] += 1;
    }
}

/// Counts an entry for its inputs, if it waits.
pub fn raise_inputs(waits: bool, wanted: &mut [u32], inputs: Inputs)
    requires a { AllByRecursion (λ i. i < length wanted.old) (option_list inputs.a) }
    requires b { AllByRecursion (λ i. i < length wanted.old) (option_list inputs.b) }
    requires c { AllByRecursion (λ i. i < length wanted.old) (option_list inputs.c) }
    requires small { (t : ℕ) → slice_index_or wanted.old t 0 ≤ ENTRY_LIMIT }
    ensures { (t : ℕ) → slice_index_or wanted.new t 0 ≡ slice_index_or wanted.old t 0 + one_if (waits && is_among inputs t) }
{
    let (second, third) = counts_for(waits, inputs);
    raise(waits, wanted, inputs.a);
    raise(second, wanted, inputs.b);
    raise(third, wanted, inputs.c);
}

/// Counts an entry no more for an input, if there is one and the entry counted.
fn lower(counts: bool, wanted: &mut [u32], input: Option<u32>)
    requires within { AllByRecursion (λ i. i < length wanted.old) (option_list input) }
    requires counted { (t : ℕ) → one_if (counts && is_at input t) ≤ slice_index_or wanted.old t 0 }
    ensures { (t : ℕ) → slice_index_or wanted.new t 0 + one_if (counts && is_at input t) ≡ slice_index_or wanted.old t 0 }
{
    if let (true, Some(t)) = (counts, input) {
        wanted[t as usize] -= 1;
    }
}

/// Counts an entry no more for its inputs.
pub fn lower_inputs(wanted: &mut [u32], inputs: Inputs)
    requires a { AllByRecursion (λ i. i < length wanted.old) (option_list inputs.a) }
    requires b { AllByRecursion (λ i. i < length wanted.old) (option_list inputs.b) }
    requires c { AllByRecursion (λ i. i < length wanted.old) (option_list inputs.c) }
    requires counted { (t : ℕ) → one_if (is_among inputs t) ≤ slice_index_or wanted.old t 0 }
    ensures { (t : ℕ) → slice_index_or wanted.new t 0 + one_if (is_among inputs t) ≡ slice_index_or wanted.old t 0 }
{
    let (second, third) = counts_for(true, inputs);
    lower(true, wanted, inputs.a);
    lower(second, wanted, inputs.b);
    lower(third, wanted, inputs.c);
}

/// Counts the pending entries that have each ticket as an input, whatever was counted before.
pub fn count_wanted(submissions: &[Submission], outcomes: &[Outcome], wanted: &mut [u32])
    requires same { length submissions.now ≡ length outcomes.now }
    requires columns { length wanted.old ≡ length outcomes.now }
    requires small { length outcomes.now ≤ ENTRY_LIMIT }
    requires below { InputsBelow submissions.now }
    ensures { (t : ℕ) → slice_index_or wanted.new t 0 ≡ wanted_by submissions.now outcomes.now t }
{
    wanted.fill(0);
    for (u, submission) in submissions.iter().enumerate() {
        raise_inputs(outcomes[u].is_pending(), wanted, submission.inputs);
    }
}
