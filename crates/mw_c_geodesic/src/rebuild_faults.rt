//! What is wrong with calls of reconstruction.

ghost use Rattle.std.specs.Prelude.{◌≡◌, ◌==◌, ◌&&◌};
ghost use Rattle.mw_c_arrays.specs.Sources.{picture_in};
ghost use Rattle.mw_c_geodesic.specs.CallFaults.{frame_case, levels_case, or_else, refuse_when};
ghost use Rattle.mw_c_geodesic.specs.Told.{of_code};

use crate::refusals::Refusal;
use mw_c_arrays::{ArrayImage, Code};

/// The refusal, where the case holds.
fn refuse_when(holds: bool, refusal: Refusal) -> Option<Refusal>
    ensures { result ≡ refuse_when holds refusal }
{
    if holds { Some(refusal) } else { None }
}

/// The refusal of a code.
fn of_code(code: Option<Code>) -> Option<Refusal>
    ensures { result ≡ of_code code }
{
    match code {
        Some(code) => Some(Refusal::Of(code)),
        None => None,
    }
}

/// The first refusal, or else the second.
fn or_else(first: Option<Refusal>, second: Option<Refusal>) -> Option<Refusal>
    ensures { result ≡ or_else first second }
{
    match first {
        Some(refusal) => Some(refusal),
        None => second,
    }
}

/// Whether both images have the same sides.
fn have_one_frame(f: ArrayImage<'_>, g: ArrayImage<'_>) -> bool
    ensures { result ≡ ((picture_in f.entry).width == (picture_in g.entry).width && (picture_in f.entry).height == (picture_in g.entry).height) }
{
    f.width() == g.width() && f.height() == g.height()
}

/// The greatest level that a sample may have.
fn top_of(f: ArrayImage<'_>) -> u32
    ensures { result ≡ (picture_in f.entry).maxval }
{
    match f {
        ArrayImage::Grey8(f) => f.maxval,
        ArrayImage::Grey16(f) => f.maxval,
        ArrayImage::Pixels(_) => 1,
    }
}

/// Whether two images have other sides.
pub(crate) fn frame_fault(f: ArrayImage<'_>, g: ArrayImage<'_>) -> Option<Refusal>
    ensures { result ≡ frame_case (picture_in f.entry).width (picture_in f.entry).height (picture_in g.entry).width (picture_in g.entry).height }
{
    refuse_when(!have_one_frame(f, g), Refusal::Frame)
}

/// Whether two images have other maxvals.
pub(crate) fn levels_fault(f: ArrayImage<'_>, g: ArrayImage<'_>) -> Option<Refusal>
    ensures { result ≡ levels_case (picture_in f.entry).maxval (picture_in g.entry).maxval }
{
    refuse_when(top_of(f) != top_of(g), Refusal::Levels)
}

/// The first thing that is wrong: with the method and the images, with their sides, with their maxvals, with the rest.
pub(crate) fn in_order(
    images: Option<Code>,
    frame: Option<Refusal>,
    levels: Option<Refusal>,
    rest: Option<Code>,
) -> Option<Refusal>
    ensures { result ≡ or_else (of_code images) (or_else frame (or_else levels (of_code rest))) }
{
    let behind = or_else(frame, or_else(levels, of_code(rest)));
    or_else(of_code(images), behind)
}
