//! A vector of results at either edge of each row, of few columns of cells that are laid out with neutral samples.
ghost use Rattle.std.specs.Prelude.{◌≡◌, ◌⊎◌, ℕ, ◌+◌, ◌-◌, ◌*◌, ◌<◌, ◌≤◌, List, length, slice_index_or};
ghost use Rattle.std.specs.List.{AllByRecursion};
ghost use Rattle.mw_model.specs.declared.offsets.Offset.{Offset};
ghost use Rattle.mw_model.specs.Windows.{seen_at};
ghost use Rattle.mw_line_lent.specs.Boxes.{IsPutAt, IsPutInRows};
ghost use Rattle.mw_offset_lent.specs.Layouts.{AreLaid, HasSeenAt, IsStripOf, IsWorkFor, StandsInLines};
ghost use Rattle.mw_offset_lent.specs.Places.{merged_at};

use crate::blocks::put_vector;
use crate::edge_cells::{Source, lay_edge_rows};
use crate::samples::{before_row, rest_from};
use crate::work::{Strip, Work};
use mw_line_lent::{Laned, LanedExtremum};
use mw_tile_lent::Lent;

/// Where vectors below one another are written: so many, each so many places behind the one before.
#[derive(Clone, Copy)]
struct Column {
    at: usize,
    apart: usize,
    high: usize,
}

/// Writes vectors below one another, of cells in rows of `wide`.
fn put_vectors<P: Laned, E: LanedExtremum<P>>(
    cells: &[P],
    places: &[usize],
    wide: usize,
    neutral: P,
    out: &mut [P],
    column: Column,
)
    requires cells { (column.high - 1) * wide + P.WIDTH ≤ length cells.now }
    requires inside { AllByRecursion (λ p. p + ((column.high - 1) * wide + P.WIDTH) ≤ length cells.now) places.now }
    requires apart { P.WIDTH ≤ column.apart }
    requires room { column.at + (column.high - 1) * column.apart + P.WIDTH ≤ length out.old }
    ensures put { IsPutInRows column.high column.at P.WIDTH column.apart out.old out.new }
    ensures made { (r i : ℕ) → r < column.high → i < P.WIDTH → slice_index_or out.new (column.at + r * column.apart + i) neutral ≡ merged_at E.merge cells.now neutral (r * wide + i) neutral places.now }
{
    for r in 0..column.high {
        let from = r * wide;
        let at = column.at + r * column.apart;
        put_vector::<P, E>(cells, places, from, neutral, out, at);
    }
}

/// A vector of each row of a strip, from this column of the tile on: the first one or the last one.
#[derive(Clone, Copy)]
pub(crate) struct Edge {
    pub strip: Strip,
    pub from: usize,
}

/// Writes such vectors.
pub(crate) fn put_edge<P: Laned, E: LanedExtremum<P>>(
    lent: &Lent<P>,
    work: Work,
    edge: Edge,
    neutral: P,
    cells: &mut [P],
    out: &mut [P],
)
    requires work { IsWorkFor P.WIDTH lent.now work }
    requires strip { IsStripOf work edge.strip }
    requires lines { StandsInLines work edge.strip }
    requires from { (edge.from ≡ 0) ⊎ (edge.from + P.WIDTH ≡ work.laid.tile.width) }
    requires cells { (work.laid.most + 2 * work.laid.around.down) * work.laid.wide ≤ length cells.old }
    requires room { length out.old ≡ work.laid.tile.height * work.laid.tile.width }
    ensures cells { length cells.new ≡ length cells.old }
    ensures put { IsPutAt (edge.strip.y * work.entry.laid.tile.width) (edge.strip.high * work.entry.laid.tile.width) out.old out.new }
    ensures kept { (r x : ℕ) → r < edge.strip.high → x < work.entry.laid.tile.width → (x < edge.from) ⊎ (edge.from + P.WIDTH ≤ x) → slice_index_or out.new (edge.strip.y * work.entry.laid.tile.width + (r * work.entry.laid.tile.width + x)) neutral ≡ slice_index_or out.old (edge.strip.y * work.entry.laid.tile.width + (r * work.entry.laid.tile.width + x)) neutral }
    ensures made { (offsets : List Offset) → AreLaid work.entry offsets → (r x : ℕ) → r < edge.strip.high → edge.from ≤ x → x < edge.from + P.WIDTH → HasSeenAt E.merge neutral (seen_at lent.now) offsets work.entry.laid.tile edge.strip.y r x out.new }
{
    let Edge { strip, from } = edge;
    let lanes = P::WIDTH;
    let laid = work.laid;
    let width = laid.tile.width as usize;
    let across = laid.around.across;
    let seen = from.min(width - 2 * lanes);
    let place = lent.place();
    let samples = lent.samples();
    let before = before_row(place, laid, strip.y);
    let source = Source {
        from: before + across + seen,
        stride: width,
        high: strip.high + 2 * laid.around.down,
    };
    lay_edge_rows::<P>(samples, source, neutral, cells);
    let column = Column {
        at: strip.y * width + from,
        apart: width,
        high: strip.high,
    };
    let ahead = from - seen + lanes - across;
    let behind = rest_from(cells, ahead);
    put_vectors::<P, E>(behind, work.edges, work.narrow, neutral, out, column);
}
