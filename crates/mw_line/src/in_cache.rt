//! Rectangles over windows that stay in the processor's cache. The rows of such a window are spread into one list, and each
//! pass goes over the whole list: down first, which leaves fewer rows to go across. What stands where one row ends and the
//! next begins is merged for nothing, which costs less than a call for each row.
ghost use Rattle.std.specs.Prelude.{◌≡◌, ℕ, ◌+◌, ◌-◌, ◌*◌, ◌<◌, ◌≤◌, ◌^◌, pos, ◌+ℤ◌, ◌≤ℤ◌, length, slice_index_or, vec_len, IfOk, IsTrue};
ghost use Rattle.mw_model.specs.declared.limits.TheConstants.{FAR_LIMIT};
ghost use Rattle.mw_line.specs.Extrema.{over_box};
ghost use Rattle.mw_line.specs.Slides.{HoldsBoxExtrema};

use crate::doubling::slide_by;
use crate::pairs::merge_rows;
use crate::slides::Slide;
use crate::spreading::{SpreadRows, spread};
use mw_model::NoMemory;
use mw_tile::Window;
use mw_tile::pixel::{Extremum, Grey, Pixel, copies};
use std::alloc::Global;

/// The longest row of a list, in bytes: longer rows take few calls. It was fitted to measured times, as the next is.
const ROW: usize = 512;

/// How many bytes all rows may have for each place of a box's sides after the first, up to five: few passes do not pay for a list.
const ALL: usize = 8192;

/// How many bytes a sample takes.
fn bytes_of<P: Pixel>() -> usize
    ensures { 0 < result }
{
    if P::TOP.value() > 255 { 2 } else { 1 }
}

/// Whether one list of all rows costs less than row after row: any answer is right for so few samples.
pub(crate) fn is_cheaper_as_list<P: Pixel>(slide: Slide) -> bool
    requires some { (0 < slide.across) × (0 < slide.down) }
    requires narrow { (slide.width < 2 ^ 32) × (slide.across ≤ 2 ^ 34) }
    requires low { (slide.height < 2 ^ 32) × (slide.down ≤ 2 ^ 34) }
    ensures { IsTrue result → (slide.width + (slide.across - 1) ≤ 2 ^ 20) × (slide.height + (slide.down - 1) ≤ 2 ^ 20) × ((slide.height + (slide.down - 1)) * (slide.width + (slide.across - 1)) ≤ 2 ^ 20) }
{
    let bytes = bytes_of::<P>();
    let wide = slide.width + (slide.across - 1);
    let high = slide.height + (slide.down - 1);
    let most = ALL * (slide.across + slide.down - 1).min(5) / bytes;
    wide <= ROW / bytes && high <= most && high * wide <= most
}

/// The greatest power of 2 that is not more than k.
fn power_within(k: usize) -> usize
    requires { 0 < k }
    ensures some { 0 < result }
    ensures within { result ≤ k }
    ensures most { k < 2 * result }
{
    let mut taken = 1usize;
    'doubling: while taken <= k / 2 {
        taken *= 2;
    }
    taken
}

/// Merges into each sample the extremum of the cells under its box. The cells are not kept.
fn merge_boxes<P: Pixel, E: Extremum<P>>(cells: &mut [P], slide: Slide, out: &mut [P])
    requires some { (0 < slide.across) × (0 < slide.down) × (0 < slide.width) × (0 < slide.height) }
    requires narrow { slide.width + (slide.across - 1) ≤ 2 ^ 20 }
    requires low { slide.height + (slide.down - 1) ≤ 2 ^ 20 }
    requires cells { (slide.height + (slide.down - 1)) * (slide.width + (slide.across - 1)) ≤ length cells.old }
    requires size { length out.old ≡ slide.height * slide.width }
    ensures { (x y : ℕ) (d : P) → x < slide.width → y < slide.height → slice_index_or out.new (y * slide.width + x) d ≡ E.merge (slice_index_or out.old (y * slide.width + x) d) (over_box E.merge (λ i j. slice_index_or cells.old (j * (slide.width + (slide.across - 1)) + i) d) slide.across slide.down x y) }
{
    let wide = slide.width + (slide.across - 1);
    let high = slide.height + (slide.down - 1);
    let taken = power_within(slide.across);
    slide_by::<P, E>(cells, high * wide, wide, slide.down);
    slide_by::<P, E>(cells, slide.height * wide, 1, taken);
    merge_rows::<P, E>(
        cells,
        wide,
        slide.across - taken,
        slide.width,
        slide.height,
        out,
    );
}

/// The rows, over a window that goes on with neutral samples.
pub(crate) fn boxes_in_cache<P: Grey, E: Extremum<P>>(
    alloc: Global,
    window: &Window<P>,
    slide: Slide,
    neutral: P,
) -> Result<Vec<P>, NoMemory>
    requires some { (0 < slide.across) × (0 < slide.down) × (0 < slide.width) × (0 < slide.height) }
    requires narrow { slide.width + (slide.across - 1) ≤ 2 ^ 20 }
    requires low { slide.height + (slide.down - 1) ≤ 2 ^ 20 }
    requires few { (slide.height + (slide.down - 1)) * (slide.width + (slide.across - 1)) ≤ 2 ^ 20 }
    requires near { slide.row ≤ℤ pos FAR_LIMIT }
    ensures size { IfOk result (λ v. vec_len v ≡ slide.height * slide.width) }
    ensures cells { IfOk result (λ v. HoldsBoxExtrema E.merge neutral window.now slide v.items) }
{
    let rows = SpreadRows {
        column: slide.column,
        row: slide.row,
        wide: slide.width + (slide.across - 1),
        high: slide.height + (slide.down - 1),
    };
    let mut cells = spread(alloc, window, rows, neutral)?;
    let mut samples = copies(alloc, slide.height * slide.width, neutral)?;
    merge_boxes::<P, E>(cells.as_mut_slice(), slide, samples.as_mut_slice());
    Ok(samples)
}
