//! One strip of a difference: of two extrema of an image under full rectangles, or of an image and its opening or closing by them.
//! What is subtracted was written just before, so it is in the cache.

ghost use Rattle.std.specs.Prelude.{◌≡◌, ◌+◌, ◌*◌, ◌≤◌, length, map, min, slice_range};
ghost use Rattle.mw_model.specs.Flat.{minus};
ghost use Rattle.mw_model.specs.Pictures.{Picture, sample};
ghost use Rattle.mw_model.specs.Tasks.{cells_in};
ghost use Rattle.mw_grid.specs.Rectangles.{whole_frame};
ghost use Rattle.mw_line_lent.specs.Near.{IsAround};
ghost use Rattle.mw_c_lent.specs.InPlace.{IsWholeView};
ghost use Rattle.mw_c_lent.specs.Slides.{AreFrameRows, AreSteps, slide_box, slide_picture, steps_picture};
ghost use Rattle.mw_c_lent.specs.Standing.{HasMadeRows, HasRowsAround};

use crate::lendable::Lendable;
use crate::slides::{Slide, put_slide};
use crate::standing::front_rows;
use crate::two_steps::{Job, put_second};
use mw_model::Rect;
use mw_rank_lent::Lent;

/// Two extrema, and the sample that changes no least.
#[derive(Clone, Copy)]
pub(crate) struct Pair<P> {
    pub upper: Slide,
    pub lower: Slide,
    pub top: P,
}

/// Writes the rows of a strip of an extremum less another, of which the rows stand in `between`.
pub(crate) fn put_less<P: Lendable>(
    lent: &Lent<P>,
    pair: Pair<P>,
    strip: Rect,
    between: &[P],
    room: &mut [P],
    out: &mut [P],
)
    requires upper { IsAround (slide_box pair.upper) }
    requires whole { lent.now.place ≡ whole_frame lent.now.frame_width lent.now.frame_height }
    requires strip { AreFrameRows strip lent.now.frame_width lent.now.frame_height }
    requires between { strip.height * strip.width ≤ length between.now }
    requires lines { 6 * (strip.width + 255) ≤ length room.old }
    requires room { length out.old ≡ strip.height * strip.width }
    requires stands { HasMadeRows P.level lent.now pair.lower (P.level pair.top) strip.y (strip.y + strip.height) between.now }
    ensures lines { length room.new ≡ length room.old }
    ensures made { (f : Picture) → IsWholeView P.level lent.now f → f.maxval ≡ P.level pair.top → map P.level out.new ≡ cells_in strip (sample (minus (slide_picture pair.upper f) (slide_picture pair.lower f))) }
{
    put_slide(pair.upper, pair.top, lent, strip, room, out);
    P::subtract_row(out, front_rows(strip, between));
}

/// The samples of a strip.
pub(crate) fn own_rows<'a, P: Lendable>(lent: &Lent<'a, P>, strip: Rect) -> &'a [P]
    requires whole { lent.now.place ≡ whole_frame lent.now.frame_width lent.now.frame_height }
    requires strip { AreFrameRows strip lent.now.frame_width lent.now.frame_height }
    ensures value { result.now ≡ slice_range lent.now.cells (strip.y * strip.width) (strip.y * strip.width + strip.height * strip.width) }
    ensures size { length result.now ≡ strip.height * strip.width }
{
    let all = lent.samples();
    let start = strip.y as usize * strip.width as usize;
    let count = strip.height as usize * strip.width as usize;
    let end = start + count;
    let rows = &all[start..end];
    rows
}

/// Writes the rows of a strip of what two steps add to an image.
pub(crate) fn put_added<P: Lendable>(
    lent: &Lent<P>,
    job: Job<P>,
    strip: Rect,
    between: &[P],
    room: &mut [P],
    out: &mut [P],
)
    requires sound { AreSteps job.steps }
    requires whole { lent.now.place ≡ whole_frame lent.now.frame_width lent.now.frame_height }
    requires strip { AreFrameRows strip lent.now.frame_width lent.now.frame_height }
    requires between { min (strip.height + (job.steps.reach.up + job.steps.reach.down)) lent.now.frame_height * strip.width ≤ length between.now }
    requires lines { 6 * (strip.width + 255) ≤ length room.old }
    requires room { length out.old ≡ strip.height * strip.width }
    requires stands { HasRowsAround P.level lent.now job.steps.first job.steps.reach (P.level job.top) strip between.now }
    ensures lines { length room.new ≡ length room.old }
    ensures made { (f : Picture) → IsWholeView P.level lent.now f → f.maxval ≡ P.level job.top → map P.level out.new ≡ cells_in strip (sample (minus (steps_picture job.steps f) f)) }
{
    put_second(lent, job, strip, between, room, out);
    P::subtract_row(out, own_rows(lent, strip));
}

/// Writes the rows of a strip of what two steps take from an image.
pub(crate) fn put_taken<P: Lendable>(
    lent: &Lent<P>,
    job: Job<P>,
    strip: Rect,
    between: &[P],
    room: &mut [P],
    out: &mut [P],
)
    requires sound { AreSteps job.steps }
    requires whole { lent.now.place ≡ whole_frame lent.now.frame_width lent.now.frame_height }
    requires strip { AreFrameRows strip lent.now.frame_width lent.now.frame_height }
    requires between { min (strip.height + (job.steps.reach.up + job.steps.reach.down)) lent.now.frame_height * strip.width ≤ length between.now }
    requires lines { 6 * (strip.width + 255) ≤ length room.old }
    requires room { length out.old ≡ strip.height * strip.width }
    requires stands { HasRowsAround P.level lent.now job.steps.first job.steps.reach (P.level job.top) strip between.now }
    ensures lines { length room.new ≡ length room.old }
    ensures made { (f : Picture) → IsWholeView P.level lent.now f → f.maxval ≡ P.level job.top → map P.level out.new ≡ cells_in strip (sample (minus f (steps_picture job.steps f))) }
{
    put_second(lent, job, strip, between, room, out);
    P::subtract_from_row(out, own_rows(lent, strip));
}
