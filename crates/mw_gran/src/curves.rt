//! Curves of granulometries.

use crate::texts::curve_text;
use mw_model::NoMemory;
use std::alloc::Global;
use std::marker::Model;

/// The volumes of a spectrum, from none to all erosions. Contracts see them as a list.
#[derive(Drop)]
pub struct Curve {
    volumes: Vec<u64>,
}

impl Model for Curve {
    ghost use Rattle.std.specs.Prelude.{List, ℕ};

    ghost Value = { List ℕ };

    ghost view = { λ c. c.volumes.items };
}

impl Curve {
    ghost use Rattle.std.specs.Prelude.{◌≡◌, IfOk};
    ghost use Rattle.mw_model.specs.Curves.{curve_text};

    /// The curve of these volumes.
    pub fn of(volumes: Vec<u64>) -> Curve
        ensures { result ≡ volumes.items }
    {
        Curve { volumes }
    }

    /// The curve of these volumes, which it copies, or `NoMemory`.
    pub fn new(alloc: Global, volumes: &[u64]) -> Result<Curve, NoMemory>
        ensures { IfOk result (λ c. c ≡ volumes.now) }
    {
        Ok(Curve::of(Vec::from_slice(alloc, volumes)?))
    }

    /// The volumes, in order.
    pub fn volumes(&self) -> &[u64]
        ensures { result.now ≡ self.now }
    {
        &self.volumes
    }

    /// The one text of the curve: a line for each volume, a line for each fall to the next, and one for the last volume;
    /// or `NoMemory`.
    pub fn text(&self, alloc: Global) -> Result<Vec<u8>, NoMemory>
        ensures { IfOk result (λ t. t.items ≡ curve_text self.now) }
    {
        curve_text(alloc, &self.volumes)
    }
}
