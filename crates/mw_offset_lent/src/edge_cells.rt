//! Cells of an edge: in each row two vectors of the place's samples, with a vector of neutral ones on either side.
ghost use Rattle.std.specs.Prelude.{◌≡◌, ℕ, ◌+◌, ◌-◌, ◌*◌, ◌<◌, ◌≤◌, length, slice_index_or};
ghost use Rattle.mw_line_lent.specs.Boxes.{IsPutAt};
ghost use Rattle.mw_offset_lent.specs.EdgeCells.{edge_cell};

use crate::blocks::store_both;
use mw_line_lent::Laned;

/// Lays out a row.
#[inline(always)]
fn lay_edge_row<P: Laned>(samples: &[P], from: usize, neutral: P, cells: &mut [P], at: usize)
    requires samples { from + 2 * P.WIDTH ≤ length samples.now }
    requires room { at + 4 * P.WIDTH ≤ length cells.old }
    ensures put { IsPutAt at (4 * P.WIDTH) cells.old cells.new }
    ensures made { (i : ℕ) → i < 4 * P.WIDTH → slice_index_or cells.new (at + i) neutral ≡ edge_cell neutral samples.now P.WIDTH from i }
{
    let beside = P::all(neutral);
    let first = P::load(samples, from);
    let second = P::load(samples, from + P::WIDTH);
    store_both::<P>((beside, first), cells, at);
    store_both::<P>((second, beside), cells, at + 2 * P::WIDTH);
}

/// Rows of samples: so many, from a place on, each `stride` behind the one before.
#[derive(Clone, Copy)]
pub(crate) struct Source {
    pub from: usize,
    pub stride: usize,
    pub high: usize,
}

/// Lays out all rows.
pub(crate) fn lay_edge_rows<P: Laned>(samples: &[P], source: Source, neutral: P, cells: &mut [P])
    requires samples { source.from + (source.high - 1) * source.stride + 2 * P.WIDTH ≤ length samples.now }
    requires room { source.high * (4 * P.WIDTH) ≤ length cells.old }
    ensures size { length cells.new ≡ length cells.old }
    ensures made { (q i : ℕ) → q < source.high → i < 4 * P.WIDTH → slice_index_or cells.new (q * (4 * P.WIDTH) + i) neutral ≡ edge_cell neutral samples.now P.WIDTH (source.from + q * source.stride) i }
{
    for q in 0..source.high {
        let from = source.from + q * source.stride;
        let at = q * (4 * P::WIDTH);
        lay_edge_row::<P>(samples, from, neutral, cells, at);
    }
}
