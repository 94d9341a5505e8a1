//! What is made of rows where they stand in a caller's array by strips, into the caller's rows: openings and closings by full
//! rectangles, what these take and add, and differences of two extrema. Strips are so low that what is written between two steps is
//! in the cache when it is read. Where memory has room, they have at least four times as many rows as a second step looks at beyond
//! them, and as many as are made together under a tall rectangle. All memory is asked for before anything is written.

ghost use Rattle.std.specs.Prelude.{◌≡◌, ◌+◌, ◌*◌, ◌/◌, ◌≤◌, max, min, length, map, IfErr, IfNone, IfOk, IfSome, false, true};
ghost use Rattle.mw_model.specs.Pictures.{Picture, sample};
ghost use Rattle.mw_model.specs.Tasks.{cells_in};
ghost use Rattle.mw_grid.specs.Rectangles.{whole_frame};
ghost use Rattle.mw_c_arrays.specs.Sources.{IsArrayImage, picture_in};
ghost use Rattle.mw_c_lent.specs.InPlace.{IsWholeView};
ghost use Rattle.mw_c_lent.specs.Recipes.{FitsStrips, IsRecipe, made_first, recipe_picture, rows_beyond};
ghost use Rattle.mw_c_lent.specs.Rows.{HasImageRows};
ghost use Rattle.mw_c_lent.specs.Slides.{AreFrameRows};
ghost use Rattle.mw_c_lent.specs.Standing.{HasRowsAround};

use crate::differences::{Pair, put_added, put_less, put_taken};
use crate::lendable::Lendable;
use crate::slides::{Slide, Steps, rows_of_room};
use crate::standing::{First, Maker, Standing, stand};
use crate::two_steps::{Job, put_second};
use mw_c_arrays::ArrayImage;
use mw_grid::whole_frame;
use mw_line_lent::copies;
use mw_model::{NoMemory, Reach, Rect};
use mw_rank_lent::Lent;
use std::alloc::Global;

/// What is made of an image.
#[derive(Clone, Copy)]
pub(crate) enum Recipe {
    /// What two steps make.
    Filter(Steps),
    /// What two steps take from it.
    Taken(Steps),
    /// What two steps add to it.
    Added(Steps),
    /// An extremum less another, of which the rows stand first.
    Less(Slide, Slide),
}

/// What is made, and the sample that changes no least.
#[derive(Clone, Copy)]
struct Order<P> {
    recipe: Recipe,
    top: P,
}

/// The first of two steps.
fn first_step(steps: Steps) -> First
    ensures { result ≡ record { slide = steps.first; reach = steps.reach } }
{
    First {
        slide: steps.first,
        reach: steps.reach,
    }
}

/// What stands first.
fn made_first(recipe: Recipe) -> First
    ensures { result ≡ made_first recipe }
{
    match recipe {
        Recipe::Filter(steps) => first_step(steps),
        Recipe::Taken(steps) => first_step(steps),
        Recipe::Added(steps) => first_step(steps),
        Recipe::Less(_, lower) => First {
            slide: lower,
            reach: Reach {
                left: 0,
                right: 0,
                up: 0,
                down: 0,
            },
        },
    }
}

/// Writes the rows of a strip, of those that stand in `between`.
fn put_rows<P: Lendable>(
    lent: &Lent<P>,
    order: Order<P>,
    strip: Rect,
    between: &[P],
    room: &mut [P],
    out: &mut [P],
)
    requires sound { IsRecipe order.recipe }
    requires whole { lent.now.place ≡ whole_frame lent.now.frame_width lent.now.frame_height }
    requires strip { AreFrameRows strip lent.now.frame_width lent.now.frame_height }
    requires between { min (strip.height + rows_beyond order.recipe) lent.now.frame_height * strip.width ≤ length between.now }
    requires lines { 6 * (strip.width + 255) ≤ length room.old }
    requires room { length out.old ≡ strip.height * strip.width }
    requires stands { HasRowsAround P.level lent.now (made_first order.recipe).slide (made_first order.recipe).reach (P.level order.top) strip between.now }
    ensures lines { length room.new ≡ length room.old }
    ensures made { (f : Picture) → IsWholeView P.level lent.now f → f.maxval ≡ P.level order.top → map P.level out.new ≡ cells_in strip (sample (recipe_picture order.recipe f)) }
{
    let top = order.top;
    match order.recipe {
        Recipe::Filter(steps) => put_second(lent, Job { steps, top }, strip, between, room, out),
        Recipe::Taken(steps) => put_taken(lent, Job { steps, top }, strip, between, room, out),
        Recipe::Added(steps) => put_added(lent, Job { steps, top }, strip, between, room, out),
        Recipe::Less(upper, lower) => {
            let pair = Pair { upper, lower, top };
            put_less(lent, pair, strip, between, room, out);
        }
    }
}

/// Writes the rows of a strip behind those above it.
fn put_rows_behind<P: Lendable>(
    lent: &Lent<P>,
    order: Order<P>,
    strip: Rect,
    between: &[P],
    room: &mut [P],
    out: &mut [P],
)
    requires sound { IsRecipe order.recipe }
    requires whole { lent.now.place ≡ whole_frame lent.now.frame_width lent.now.frame_height }
    requires strip { AreFrameRows strip lent.now.frame_width lent.now.frame_height }
    requires between { min (strip.height + rows_beyond order.recipe) lent.now.frame_height * strip.width ≤ length between.now }
    requires lines { 6 * (strip.width + 255) ≤ length room.old }
    requires room { strip.y * strip.width + strip.height * strip.width ≤ length out.old }
    requires stands { HasRowsAround P.level lent.now (made_first order.recipe).slide (made_first order.recipe).reach (P.level order.top) strip between.now }
    ensures lines { length room.new ≡ length room.old }
    ensures size { length out.new ≡ length out.old }
    ensures made { (f : Picture) → IsWholeView P.level lent.now f → f.maxval ≡ P.level order.top → HasImageRows P.level (recipe_picture order.recipe f) 0 strip.y out.old → HasImageRows P.level (recipe_picture order.recipe f) 0 (strip.y + strip.height) out.new }
{
    let start = strip.y as usize * strip.width as usize;
    let count = strip.height as usize * strip.width as usize;
    let rows = &mut out[start..start + count];
    put_rows(lent, order, strip, between, room, rows);
}

/// Writes all rows, so many at a time.
fn put_all<P: Lendable>(
    lent: &Lent<P>,
    order: Order<P>,
    rows: u32,
    between: &mut [P],
    room: &mut [P],
    out: &mut [P],
)
    requires sound { IsRecipe order.recipe }
    requires whole { lent.now.place ≡ whole_frame lent.now.frame_width lent.now.frame_height }
    requires wide { 32 ≤ lent.now.frame_width }
    requires some { 1 ≤ rows }
    requires between { min (rows + rows_beyond order.recipe) lent.now.frame_height * lent.now.frame_width ≤ length between.old }
    requires lines { 6 * (lent.now.frame_width + 255) ≤ length room.old }
    requires room { length out.old ≡ lent.now.frame_height * lent.now.frame_width }
    ensures { (f : Picture) → IsWholeView P.level lent.now f → f.maxval ≡ P.level order.top → map P.level out.new ≡ (recipe_picture order.recipe f).samples }
{
    let (width, height) = (lent.frame_width(), lent.frame_height());
    let first = made_first(order.recipe);
    let maker = Maker {
        first,
        top: order.top,
    };
    let mut standing = Standing { from: 0, to: 0 };
    let mut done = 0;
    'strips: while done < height {
        let strip = Rect {
            x: 0,
            y: done,
            width,
            height: rows.min(height - done),
        };
        standing = stand(lent, maker, strip, standing, between, room);
        put_rows_behind(lent, order, strip, between, room, out);
        done += strip.height;
    }
}

/// About so many bytes have the rows of a strip of two steps, so that they stay in the cache.
pub(crate) const STRIP: u32 = 262144;

/// And of a difference of two extrema, of which no row is looked at twice.
pub(crate) const STRIP_LESS: u32 = 131072;

/// No more bytes have the rows between the two steps.
const MEMORY: u32 = 1966080;

/// About how many bytes the rows of a strip have.
fn strip_size(recipe: Recipe) -> u32
    ensures { result ≤ 262144 }
{
    match recipe {
        Recipe::Filter(_) => STRIP,
        Recipe::Taken(_) => STRIP,
        Recipe::Added(_) => STRIP,
        Recipe::Less(_, _) => STRIP_LESS,
    }
}

/// How many bytes a row has.
pub(crate) fn row_size(f: ArrayImage<'_>) -> u32
    ensures some { 1 ≤ result }
    ensures small { result ≤ max 1 (2 * (picture_in f.entry).width) }
{
    let width = f.width();
    match f {
        ArrayImage::Grey16(_) => width.saturating_mul(2).max(1),
        ArrayImage::Grey8(_) => width.max(1),
        ArrayImage::Pixels(_) => width.max(1),
    }
}

/// How many rows a strip of about so many bytes has, if all are in memory: where that holds more, as many as are made together, and
/// four times as many as are moved for the next strip, less as many as have the memory that is wanted besides.
pub(crate) fn rows_of_strip(
    bytes: u32,
    together: u32,
    besides: u32,
    row_size: u32,
    beyond: u32,
    height: u32,
) -> Option<u32>
    requires bytes { bytes ≤ 262144 }
    requires size { 1 ≤ row_size }
    requires few { beyond ≤ 255 }
    requires high { 1 ≤ height }
    ensures some { IfSome result (λ rows. 1 ≤ rows) }
    ensures low { IfSome result (λ rows. rows ≤ height) }
    ensures many { IfSome result (λ rows. min height (max 16 (bytes / row_size)) ≤ rows) }
    ensures fits { IfNone result ((5 * beyond + 16) * row_size ≤ 1703936 → ⊥) }
{
    let most = MEMORY / row_size;
    let least = (bytes / row_size).max(16);
    let wanted = together.max(beyond * 4);
    let rows = least
        .max(wanted.min(most.saturating_sub(beyond.saturating_add(besides / row_size))))
        .min(height);
    let all = rows + beyond;
    if all > most {
        return None;
    }
    Some(rows)
}

/// How many rows are looked at beyond a strip.
fn beyond_of(recipe: Recipe) -> u32
    requires { IsRecipe recipe }
    ensures value { result ≡ rows_beyond recipe }
    ensures few { result ≤ 255 }
{
    let first = made_first(recipe);
    let beyond = first.reach.up + first.reach.down;
    beyond
}

/// How many rows of room the rectangles of a recipe make use of beside six lines, in a frame of so many rows; a strip of as many is
/// made together.
fn rows_made_together(recipe: Recipe, height: u32) -> u32
    ensures { result ≤ 260 }
{
    let (a, b) = match recipe {
        Recipe::Filter(steps) => (steps.first, steps.second),
        Recipe::Taken(steps) => (steps.first, steps.second),
        Recipe::Added(steps) => (steps.first, steps.second),
        Recipe::Less(upper, lower) => (upper, lower),
    };
    rows_of_room(a, height).max(rows_of_room(b, height))
}

/// Writes what is made of an image, if that can be made here. Says whether it did: where not, it writes nothing. It may want memory
/// (`NoMemory`), but only before it writes.
pub(crate) fn put_recipe<P: Lendable>(
    alloc: Global,
    recipe: Recipe,
    f: ArrayImage<'_>,
    out: &mut [P],
) -> Result<bool, NoMemory>
    requires sound { IsArrayImage f }
    requires recipe { IsRecipe recipe }
    requires room { length out.old ≡ (picture_in f).height * (picture_in f).width }
    ensures made { IfOk result (λ done. done ≡ true → map P.level out.new ≡ (recipe_picture recipe (picture_in f.entry)).samples) }
    ensures fits { IfOk result (λ done. FitsStrips P.top_level (rows_beyond recipe) f.entry → done ≡ true) }
    ensures left_out { IfOk result (λ done. done ≡ false → out.new ≡ out.old) }
    ensures kept { IfErr result (λ _. out.new ≡ out.old) }
{
    let Some(samples) = P::grey(f) else {
        return Ok(false);
    };
    let Some(top) = P::of(f.maxval()) else {
        return Ok(false);
    };
    let (width, height) = (f.width(), f.height());
    let beyond = beyond_of(recipe);
    let together = rows_made_together(recipe, height);
    let size = strip_size(recipe);
    let Some(rows) = rows_of_strip(size, together, 0, row_size(f), beyond, height) else {
        return Ok(false);
    };
    if width < 32 {
        return Ok(false);
    }
    let wide = width as usize;
    let held = (rows + beyond).min(height);
    let mut between = copies(alloc, held as usize * wide, top)?;
    let mut room = copies(alloc, 6 * (wide + 255) + together as usize * wide, top)?;
    let lent = Lent::new(width, height, whole_frame(width, height), samples);
    put_all(
        &lent,
        Order { recipe, top },
        rows,
        between.as_mut_slice(),
        room.as_mut_slice(),
        out,
    );
    Ok(true)
}
