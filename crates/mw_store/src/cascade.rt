//! A dead input fails what waits for it.

ghost use Rattle.std.specs.Prelude.{◌≡◌, ◌<◌, [], length, find};
ghost use Rattle.std.specs.List.{AllByRecursion};
ghost use Rattle.mw_model.specs.Values.{tickets, option_list};
ghost use Rattle.mw_model.specs.Refusals.{is_dead, outcome_at};
ghost use Rattle.mw_model.specs.Machine.{beside, cascaded};
ghost use Rattle.mw_store.specs.Stored.{InputsBelow};

use mw_model::{Inputs, Outcome, Submission};

fn dead_one(outcomes: &[Outcome], input: Option<u32>) -> Option<u32>
    requires { AllByRecursion (λ i. i < length outcomes.now) (option_list input) }
    ensures { result ≡ find (λ t. is_dead (outcome_at outcomes.now t)) (option_list input) }
{
    match input {
        Some(t) => {
            if outcomes[t as usize].is_dead() {
                Some(t)
            } else {
                None
            }
        }
        None => None,
    }
}

/// The first dead input, in argument order.
fn first_dead(outcomes: &[Outcome], inputs: Inputs) -> Option<u32>
    requires a { AllByRecursion (λ i. i < length outcomes.now) (option_list inputs.a) }
    requires b { AllByRecursion (λ i. i < length outcomes.now) (option_list inputs.b) }
    requires c { AllByRecursion (λ i. i < length outcomes.now) (option_list inputs.c) }
    ensures { result ≡ find (λ t. is_dead (outcome_at outcomes.now t)) (tickets inputs) }
{
    let a = dead_one(outcomes, inputs.a);
    if a.is_some() {
        return a;
    }
    let b = dead_one(outcomes, inputs.b);
    if b.is_some() {
        return b;
    }
    dead_one(outcomes, inputs.c)
}

/// How an entry stands beside the outcomes of its inputs.
fn beside_inputs(outcomes: &[Outcome], inputs: Inputs, own: Outcome) -> Outcome
    requires a { AllByRecursion (λ i. i < length outcomes.now) (option_list inputs.a) }
    requires b { AllByRecursion (λ i. i < length outcomes.now) (option_list inputs.b) }
    requires c { AllByRecursion (λ i. i < length outcomes.now) (option_list inputs.c) }
    ensures { result ≡ beside outcomes.now inputs own }
{
    match (own, first_dead(outcomes, inputs)) {
        (Outcome::Pending, Some(s)) => Outcome::Input(s),
        _ => own,
    }
}

/// In ticket order, each pending entry with a dead input fails by the first of them.
pub fn fail_dependents(submissions: &[Submission], outcomes: &mut [Outcome])
    requires same { length submissions.now ≡ length outcomes.old }
    requires below { InputsBelow submissions.now }
    ensures { outcomes.new ≡ cascaded [] submissions.now outcomes.old }
{
    for (t, submission) in submissions.iter().enumerate() {
        outcomes[t] = beside_inputs(outcomes, submission.inputs, outcomes[t]);
    }
}
