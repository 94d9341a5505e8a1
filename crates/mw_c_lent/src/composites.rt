//! What is made of an image by two extrema under elements of any shape: openings and closings, what these take and add, and
//! differences of two extrema.

ghost use Rattle.std.specs.Prelude.{◌≡◌, ◌+◌, ◌≤◌, IfNone, IfSome};
ghost use Rattle.mw_c_lent.specs.Composites.{AreElementRules, LooksWithin, first_made, last_rule, first_rule};
ghost use Rattle.mw_c_lent.specs.Suited.{rows_beside};

use crate::in_turn::reach_of;
use crate::rules::Rule;
use mw_c_arrays::ArrayImage;
use mw_model::Reach;

/// What is made of an image by two extrema under elements of any shape.
#[derive(Clone, Copy)]
pub enum Composite<'a> {
    /// The second of what the first makes: an opening or a closing.
    InTurn(Rule<'a>, Rule<'a>),
    /// What two in turn take from the image.
    Taken(Rule<'a>, Rule<'a>),
    /// What two in turn add to it.
    Added(Rule<'a>, Rule<'a>),
    /// What the first makes less what the second makes.
    Less(Rule<'a>, Rule<'a>),
}

/// What is made of an image, and how far beyond a strip those rows are looked at that are made first.
#[derive(Clone, Copy)]
pub(crate) struct Composition<'a> {
    pub composite: Composite<'a>,
    pub f: ArrayImage<'a>,
    pub reach: Reach,
}

/// Both rules.
fn rules_of<'a>(composite: Composite<'a>) -> (Rule<'a>, Rule<'a>)
    ensures first { result.0 ≡ first_rule composite.entry }
    ensures last { result.1 ≡ last_rule composite.entry }
{
    match composite {
        Composite::InTurn(first, second) => (first, second),
        Composite::Taken(first, second) => (first, second),
        Composite::Added(first, second) => (first, second),
        Composite::Less(upper, lower) => (upper, lower),
    }
}

/// The rule whose rows are made first.
pub(crate) fn made_first<'a>(composite: Composite<'a>) -> Rule<'a>
    ensures { result ≡ first_made composite.entry }
{
    match composite {
        Composite::InTurn(first, _) => first,
        Composite::Taken(first, _) => first,
        Composite::Added(first, _) => first,
        Composite::Less(_, lower) => lower,
    }
}

/// How far beyond a strip rows of the first extremum are looked at, where both are extrema under elements.
pub(crate) fn reach_beyond(composite: Composite<'_>) -> Option<Reach>
    ensures rules { IfSome result (λ reach. AreElementRules composite.entry) }
    ensures reach { IfSome result (λ reach. LooksWithin reach composite.entry) }
    ensures low { IfSome result (λ reach. reach.up + reach.down ≤ rows_beside (last_rule composite.entry)) }
    ensures none { IfNone result (AreElementRules composite.entry → ⊥) }
{
    let (first, last) = rules_of(composite);
    let Some(_own) = reach_of(first) else {
        return None;
    };
    let Some(reach) = reach_of(last) else {
        return None;
    };
    match composite {
        Composite::InTurn(_, _) => Some(reach),
        Composite::Taken(_, _) => Some(reach),
        Composite::Added(_, _) => Some(reach),
        Composite::Less(_, _) => Some(Reach {
            left: 0,
            right: 0,
            up: 0,
            down: 0,
        }),
    }
}

/// How many rows an extremum looks at beside one.
fn rows_beside(rule: Rule<'_>) -> u32 {
    match reach_of(rule) {
        Some(reach) => reach.up.saturating_add(reach.down),
        None => 0,
    }
}

/// How many rows that of both looks at which looks at more, beside one.
pub(crate) fn most_rows_beside(composite: Composite<'_>) -> u32 {
    let (first, last) = rules_of(composite);
    rows_beside(first).max(rows_beside(last))
}
