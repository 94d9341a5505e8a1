//! Rows of what a first step makes, which stand in a buffer for the step that looks at them. The buffer slides down the image: rows
//! that the next strip looks at as well are moved to its front, and those alone are made that are lacking.

ghost use Rattle.std.specs.Prelude.{◌≡◌, ◌+◌, ◌-◌, ◌*◌, ◌<◌, ◌≤◌, length, map, min};
ghost use Rattle.mw_model.specs.Pictures.{Picture, sample};
ghost use Rattle.mw_model.specs.Tasks.{cells_in};
ghost use Rattle.mw_grid.specs.Rectangles.{whole_frame};
ghost use Rattle.mw_line_lent.specs.Near.{IsAround};
ghost use Rattle.mw_c_lent.specs.Rows.{HasImageRows, IsStrip};
ghost use Rattle.mw_c_lent.specs.Slides.{AreFrameRows, slide_box};
ghost use Rattle.mw_c_lent.specs.Standing.{HasMadeRows, seen_from, seen_to};

use crate::lendable::Lendable;
use crate::slides::{Slide, put_slide};
use mw_grid::grown;
use mw_model::{Reach, Rect};
use mw_rank_lent::Lent;

/// Rows of an image in the front of a buffer: from one on, before another.
#[derive(Clone, Copy)]
pub(crate) struct Standing {
    pub from: u32,
    pub to: u32,
}

/// A step, and how far beyond a strip its rows are looked at.
#[derive(Clone, Copy)]
pub(crate) struct First {
    pub slide: Slide,
    pub reach: Reach,
}

/// The first step, and the sample that changes no least.
#[derive(Clone, Copy)]
pub(crate) struct Maker<P> {
    pub first: First,
    pub top: P,
}

/// Moves the rows that stand to the front, without those above row `from`.
pub(crate) fn move_to_front<P: Lendable>(
    standing: Standing,
    from: u32,
    width: u32,
    between: &mut [P],
)
    requires behind { standing.from ≤ from }
    requires joined { from ≤ standing.to }
    requires held { (standing.to - standing.from) * width ≤ length between.old }
    ensures between { length between.new ≡ length between.old }
    ensures moved { (f : Picture) → f.width ≡ width → HasImageRows P.level f standing.from standing.to between.old → HasImageRows P.level f from standing.to between.new }
{
    let wide = width as usize;
    let start = (from - standing.from) as usize * wide;
    let end = (standing.to - standing.from) as usize * wide;
    between.copy_within(start..end, 0);
}

/// Makes the rows that are lacking behind those that stand, before row `end`.
fn make_before<P: Lendable>(
    lent: &Lent<P>,
    maker: Maker<P>,
    standing: Standing,
    end: u32,
    between: &mut [P],
    room: &mut [P],
)
    requires around { IsAround (slide_box maker.first.slide) }
    requires whole { lent.now.place ≡ whole_frame lent.now.frame_width lent.now.frame_height }
    requires wide { 32 ≤ lent.now.frame_width }
    requires joined { standing.from ≤ standing.to }
    requires low { end ≤ lent.now.frame_height }
    requires held { (end - standing.from) * lent.now.frame_width ≤ length between.old }
    requires lines { 6 * (lent.now.frame_width + 255) ≤ length room.old }
    requires stands { HasMadeRows P.level lent.now maker.first.slide (P.level maker.top) standing.from standing.to between.old }
    ensures between { length between.new ≡ length between.old }
    ensures lines { length room.new ≡ length room.old }
    ensures made { HasMadeRows P.level lent.now maker.first.slide (P.level maker.top) standing.from end between.new }
{
    if standing.to >= end {
        return;
    }
    let width = lent.frame_width();
    let tile = Rect {
        x: 0,
        y: standing.to,
        width,
        height: end - standing.to,
    };
    let start = (standing.to - standing.from) as usize * width as usize;
    let count = tile.height as usize * width as usize;
    let stop = start + count;
    let rows = &mut between[start..stop];
    put_slide(maker.first.slide, maker.top, lent, tile, room, rows);
}

/// Lets those rows stand that are looked at for a strip, where some stand for the strip before. Returns which stand then.
pub(crate) fn stand<P: Lendable>(
    lent: &Lent<P>,
    maker: Maker<P>,
    strip: Rect,
    standing: Standing,
    between: &mut [P],
    room: &mut [P],
) -> Standing
    requires around { IsAround (slide_box maker.first.slide) }
    requires whole { lent.now.place ≡ whole_frame lent.now.frame_width lent.now.frame_height }
    requires strip { AreFrameRows strip lent.now.frame_width lent.now.frame_height }
    requires behind { standing.from ≤ seen_from maker.first.reach strip }
    requires joined { seen_from maker.first.reach strip ≤ standing.to }
    requires held { (standing.to - standing.from) * strip.width ≤ length between.old }
    requires between { min (strip.height + (maker.first.reach.up + maker.first.reach.down)) lent.now.frame_height * strip.width ≤ length between.old }
    requires lines { 6 * (strip.width + 255) ≤ length room.old }
    requires stands { HasMadeRows P.level lent.now maker.first.slide (P.level maker.top) standing.from standing.to between.old }
    ensures between { length between.new ≡ length between.old }
    ensures lines { length room.new ≡ length room.old }
    ensures from { result.from ≡ seen_from maker.first.reach strip }
    ensures to { result.to ≡ seen_to lent.now.frame_height maker.first.reach strip }
    ensures held { (result.to - result.from) * strip.width ≤ length between.new }
    ensures stands { HasMadeRows P.level lent.now maker.first.slide (P.level maker.top) result.from result.to between.new }
{
    let (width, height) = (lent.frame_width(), lent.frame_height());
    let place = grown(strip, maker.first.reach, width, height);
    move_to_front(standing, place.y, strip.width, between);
    let kept = Standing {
        from: place.y,
        to: standing.to,
    };
    let end = place.y + place.height;
    make_before(lent, maker, kept, end, between, room);
    Standing {
        from: place.y,
        to: end,
    }
}

/// The samples of a place of whole rows, in the front of a buffer.
pub(crate) fn front_rows<P: Lendable>(place: Rect, between: &[P]) -> &[P]
    requires { place.height * place.width ≤ length between.now }
    ensures size { length result.now ≡ place.height * place.width }
    ensures rows { (f : Picture) → IsStrip place f → HasImageRows P.level f place.y (place.y + place.height) between.now → map P.level result.now ≡ cells_in place (sample f) }
{
    let count = place.height as usize * place.width as usize;
    let rows = &between[..count];
    rows
}
