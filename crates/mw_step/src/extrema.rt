//! The lesser and the greater of levels, whatever samples hold them.

use mw_model::NoMemory;
use mw_rank_bits::bits::{WordExtremum, join, meet};
use mw_step_task::pixel::{Bit, Extremum, Max, Min, Plane};
use mw_step_task::tile::Window;
use std::alloc::Global;

/// An extremum of samples of every type, and what it is of their levels: of two, and of all that are seen in an image with
/// a maxval.
pub(crate) trait LevelExtremum: WordExtremum + Extremum<u8> + Extremum<u16> {
    ghost use Rattle.std.specs.Prelude.{◌≡◌, ℕ, ◌*◌, List, fold, length, IfOk};
    ghost use lib.Lanes.{zip2};

    ghost of_two: { ℕ → ℕ → ℕ };

    ghost of_seen: { ℕ → List ℕ → ℕ };

    /// The extremum of each two pixels of two sets.
    fn of_sets(alloc: Global, a: &Window<Bit>, b: &Window<Bit>) -> Result<Plane<Bit>, NoMemory>
        requires { a.now.place ≡ b.now.place }
        ensures width { IfOk result (λ p. p.width ≡ a.now.place.width) }
        ensures height { IfOk result (λ p. p.height ≡ a.now.place.height) }
        ensures cells { IfOk result (λ p. p.cells ≡ zip2 of_two a.now.cells b.now.cells) }
        ensures first { length a.now.cells ≡ a.now.place.height * a.now.place.width }
        ensures second { length b.now.cells ≡ a.now.place.height * a.now.place.width };

    ghost bytes_merge: { ⟦<Self as Extremum<u8>>⟧.merge ≡ of_two };

    ghost words_merge: { ⟦<Self as Extremum<u16>>⟧.merge ≡ of_two };

    ghost bits_fold: { (m : ℕ) (ns : List ℕ) → fold ⟦<Self as Extremum<Bit>>⟧.merge (⟦<Self as Extremum<Bit>>⟧.neutral_of m) ns ≡ of_seen m ns };

    ghost bytes_fold: { (m : ℕ) (ns : List ℕ) → fold ⟦<Self as Extremum<u8>>⟧.merge (⟦<Self as Extremum<u8>>⟧.neutral_of m) ns ≡ of_seen m ns };

    ghost words_fold: { (m : ℕ) (ns : List ℕ) → fold ⟦<Self as Extremum<u16>>⟧.merge (⟦<Self as Extremum<u16>>⟧.neutral_of m) ns ≡ of_seen m ns };
}

impl LevelExtremum for Min {
    ghost use Rattle.std.specs.Prelude.{min, refl};
    ghost use Rattle.mw_model.specs.Flat.{least};
    ghost use Rattle.mw_model.proofs.ImageLaws.{fold-min};

    ghost of_two = { min };

    ghost of_seen = { least };

    fn of_sets(alloc: Global, a: &Window<Bit>, b: &Window<Bit>) -> Result<Plane<Bit>, NoMemory> {
        meet(alloc, a, b)
    }

    ghost bytes_merge = { refl };

    ghost words_merge = { refl };

    ghost bits_fold = { fold-min };

    ghost bytes_fold = { fold-min };

    ghost words_fold = { fold-min };
}

impl LevelExtremum for Max {
    ghost use Rattle.std.specs.Prelude.{max, refl};
    ghost use Rattle.mw_model.specs.Flat.{greatest};
    ghost use Rattle.mw_model.proofs.ImageLaws.{fold-max_from_none};

    ghost of_two = { max };

    ghost of_seen = { λ m ns. greatest ns };

    fn of_sets(alloc: Global, a: &Window<Bit>, b: &Window<Bit>) -> Result<Plane<Bit>, NoMemory> {
        join(alloc, a, b)
    }

    ghost bytes_merge = { refl };

    ghost words_merge = { refl };

    ghost bits_fold = { λ m ns. fold-max_from_none ns };

    ghost bytes_fold = { λ m ns. fold-max_from_none ns };

    ghost words_fold = { λ m ns. fold-max_from_none ns };
}
