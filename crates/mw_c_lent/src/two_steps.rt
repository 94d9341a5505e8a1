//! One strip of an opening or a closing by full rectangles, written into the caller's rows. The rows of the first step that the second
//! looks at stand in a buffer, where they are in the cache when it reads them.

ghost use Rattle.std.specs.Prelude.{◌≡◌, ◌+◌, ◌*◌, ◌≤◌, length, map, min};
ghost use Rattle.mw_model.specs.Pictures.{Picture, sample};
ghost use Rattle.mw_model.specs.Tasks.{cells_in};
ghost use Rattle.mw_grid.specs.Rectangles.{whole_frame};
ghost use Rattle.mw_c_lent.specs.InPlace.{IsWholeView};
ghost use Rattle.mw_c_lent.specs.Slides.{AreFrameRows, AreSteps, steps_picture};
ghost use Rattle.mw_c_lent.specs.Standing.{HasRowsAround};

use crate::lendable::Lendable;
use crate::slides::{Steps, put_slide};
use crate::standing::front_rows;
use mw_grid::grown;
use mw_model::Rect;
use mw_rank_lent::Lent;

/// The steps, and the sample that changes no least.
#[derive(Clone, Copy)]
pub(crate) struct Job<P> {
    pub steps: Steps,
    pub top: P,
}

/// Writes the rows of a strip, of the rows of the first step that stand in `between`.
pub(crate) fn put_second<P: Lendable>(
    lent: &Lent<P>,
    job: Job<P>,
    strip: Rect,
    between: &[P],
    room: &mut [P],
    out: &mut [P],
)
    requires sound { AreSteps job.steps }
    requires whole { lent.now.place ≡ whole_frame lent.now.frame_width lent.now.frame_height }
    requires strip { AreFrameRows strip lent.now.frame_width lent.now.frame_height }
    requires between { min (strip.height + (job.steps.reach.up + job.steps.reach.down)) lent.now.frame_height * strip.width ≤ length between.now }
    requires lines { 6 * (strip.width + 255) ≤ length room.old }
    requires room { length out.old ≡ strip.height * strip.width }
    requires stands { HasRowsAround P.level lent.now job.steps.first job.steps.reach (P.level job.top) strip between.now }
    ensures lines { length room.new ≡ length room.old }
    ensures size { length out.new ≡ length out.old }
    ensures made { (f : Picture) → IsWholeView P.level lent.now f → f.maxval ≡ P.level job.top → map P.level out.new ≡ cells_in strip (sample (steps_picture job.steps f)) }
{
    let (width, height) = (lent.frame_width(), lent.frame_height());
    let place = grown(strip, job.steps.reach, width, height);
    let rows = front_rows(place, between);
    let seen = Lent::new(width, height, place, rows);
    put_slide(job.steps.second, job.top, &seen, strip, room, out);
}
