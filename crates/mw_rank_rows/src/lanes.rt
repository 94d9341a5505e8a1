//! What is known of eight histograms side by side, beside their counters.
ghost use Rattle.std.specs.Prelude.{◌≡◌, ℕ, ◌+◌, ◌*◌, ◌<◌, ◌≤◌, List, replicate};
ghost use Rattle.mw_rank_rows.specs.Tables.{LanesHold};

use crate::search::Front;
use std::simd::Simd;
use std::simd::prelude::*;

/// The front of the search, and how many samples each lane has.
#[derive(Clone, Copy)]
pub(crate) struct Lanes {
    pub front: Front,
    pub held: Simd<u16, 8>,
}

/// Lanes of no samples.
pub(crate) fn no_samples() -> Lanes
    ensures { (levels : ℕ) (u : ℕ → ℕ → ℕ) → 1 ≤ levels → levels < 65536 → ((v j : ℕ) → j < 8 → u v j ≡ 0) → LanesHold levels u (replicate (levels * 8) 0) result }
{
    let none = Simd::<u16, 8>::splat(0);
    let front = Front {
        level: 0,
        below: none,
    };
    Lanes { front, held: none }
}
