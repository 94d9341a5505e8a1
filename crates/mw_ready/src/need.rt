//! What a step of a plan needs.

ghost use Rattle.std.specs.Prelude.{◌≡◌, ℕ, ◌+◌};
ghost use Rattle.mw_grid.specs.Counts.{bit};
ghost use Rattle.mw_ready.specs.Boards.{is_source, step_reads};

use mw_model::Reach;

/// What the tasks of a step read: tiles of these earlier steps, as far around their own tile as the reach, in pixels.
#[derive(Clone, Copy)]
pub struct Need {
    pub reach: Reach,
    pub steps: [Option<u32>; 3],
}

/// Whether one with this need reads the step.
pub(crate) fn does_read(need: Need, step: u32) -> bool
    ensures { result ≡ step_reads need step }
{
    need.steps.iter().any(|source| *source == Some(step))
}

/// The steps that one with this need reads, each of them once.
pub(crate) fn sources(need: Need) -> (Option<u32>, Option<u32>, Option<u32>)
    ensures { (s : ℕ) → bit (is_source s result.0) + bit (is_source s result.1) + bit (is_source s result.2) ≡ bit (step_reads need s) }
{
    let [first, second, third] = need.steps;
    let other = if second == first { None } else { second };
    let last = if third == first || third == second {
        None
    } else {
        third
    };
    (first, other, last)
}
