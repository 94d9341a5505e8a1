//! What two extrema under elements of any shape make of an image, strip by strip, written into the caller's rows. Strips are so low that
//! what is written between two steps is in the cache when it is read, and so high, where memory has room, that few rows are laid out
//! twice by a kernel. A kernel may refuse any strip, or want memory for it: what is written then stands.

ghost use Rattle.std.specs.Prelude.{◌≡◌, ◌+◌, ◌-◌, ◌*◌, ◌/◌, ◌<◌, ◌≤◌, ◌≢◌, length, map, max, min, IfErr, IfNone, IfOk, IfSome, false, true};
ghost use Rattle.mw_model.specs.declared.offsets.Rect.{Rect};
ghost use Rattle.mw_model.specs.Pictures.{sample};
ghost use Rattle.mw_model.specs.Tasks.{cells_in};
ghost use Rattle.mw_c_arrays.specs.Sources.{IsArrayImage, picture_in};
ghost use Rattle.mw_c_lent.specs.Composites.{AreElementRules, IsComposition, composite_picture, first_made, last_rule};
ghost use Rattle.mw_c_lent.specs.InPlace.{IsWholeView};
ghost use Rattle.mw_c_lent.specs.Rows.{EndAt, HasImageRows};
ghost use Rattle.mw_c_lent.specs.Rules.{rule_picture};
ghost use Rattle.mw_c_lent.specs.Slides.{AreFrameRows};
ghost use Rattle.mw_c_lent.specs.Standing.{seen_from, seen_to};
ghost use Rattle.mw_c_lent.specs.Suited.{IsFirstHeight, IsMadeByStrips, SuitComposite, rows_beside};

use crate::composed::{Composer, put_composed};
use crate::composites::{Composite, Composition, made_first, most_rows_beside, reach_beyond};
use crate::lacking::{Source, let_stand};
use crate::lendable::Lendable;
use crate::recipes::{STRIP, STRIP_LESS, row_size, rows_of_strip};
use crate::standing::Standing;
use mw_c_arrays::ArrayImage;
use mw_grid::whole_frame;
use mw_line_lent::{Room, copies};
use mw_model::{NoMemory, Reach, Rect};
use mw_rank_lent::Lent;
use std::alloc::Global;

/// A strip, the rows that stand for the one above it, the row with which the array begins, and the sample that changes no least.
#[derive(Clone, Copy)]
struct Next<P> {
    strip: Rect,
    standing: Standing,
    first: u32,
    top: P,
}

/// Lets the rows stand that are looked at for a strip, and writes its rows, if there are kernels for that.
fn put_next<P: Lendable>(
    room: &mut Room<P>,
    lent: &Lent<P>,
    composition: Composition<'_>,
    next: Next<P>,
    between: &mut [P],
    out: &mut [P],
) -> Result<bool, NoMemory>
    requires sound { IsComposition composition }
    requires view { IsWholeView P.level lent.now (picture_in composition.f) }
    requires top { (picture_in composition.f).maxval ≡ P.level next.top }
    requires strip { AreFrameRows next.strip (picture_in composition.f).width (picture_in composition.f).height }
    requires behind { next.standing.from ≤ seen_from composition.reach next.strip }
    requires joined { seen_from composition.reach next.strip ≤ next.standing.to }
    requires held { (next.standing.to - next.standing.from) * next.strip.width ≤ length between.old }
    requires between { min (next.strip.height + (composition.reach.up + composition.reach.down)) (picture_in composition.f).height * next.strip.width ≤ length between.old }
    requires room { length out.old ≡ next.strip.height * next.strip.width }
    requires stands { HasImageRows P.level (rule_picture (first_made composition.composite) (picture_in composition.f)) next.standing.from next.standing.to between.old }
    ensures between { length between.new ≡ length between.old }
    ensures stands { IfOk result (λ done. done ≡ true → HasImageRows P.level (rule_picture (first_made composition.entry.composite) (picture_in composition.entry.f)) (seen_from composition.entry.reach next.strip) (seen_to (picture_in composition.entry.f).height composition.entry.reach next.strip) between.new) }
    ensures made { IfOk result (λ done. done ≡ true → map P.level out.new ≡ cells_in next.strip (sample (composite_picture composition.entry.composite (picture_in composition.entry.f)))) }
    ensures taken { next.standing.from ≡ next.standing.to → (picture_in composition.entry.f).maxval ≤ P.top_level → SuitComposite composition.entry.composite next.strip → IfOk result (λ done. done ≡ true) }
    ensures left_out { IfOk result (λ done. done ≡ false → out.new ≡ out.old) }
    ensures kept { IfErr result (λ _. out.new ≡ out.old) }
{
    let strip = next.strip;
    let Composition {
        composite,
        f,
        reach,
    } = composition;
    let source = Source {
        rule: made_first(composite),
        f,
        reach,
    };
    if !let_stand(room, lent, source, strip, next.standing, between)? {
        return Ok(false);
    }
    let composer = Composer {
        composition,
        top: next.top,
    };
    put_composed(room, lent, composer, strip, between, out)
}

/// Writes the rows of a strip behind those that are written above it, if there are kernels for that.
fn put_next_behind<P: Lendable>(
    room: &mut Room<P>,
    lent: &Lent<P>,
    composition: Composition<'_>,
    next: Next<P>,
    between: &mut [P],
    out: &mut [P],
) -> Result<bool, NoMemory>
    requires sound { IsComposition composition }
    requires view { IsWholeView P.level lent.now (picture_in composition.f) }
    requires top { (picture_in composition.f).maxval ≡ P.level next.top }
    requires strip { AreFrameRows next.strip (picture_in composition.f).width (picture_in composition.f).height }
    requires behind { next.standing.from ≤ seen_from composition.reach next.strip }
    requires joined { seen_from composition.reach next.strip ≤ next.standing.to }
    requires held { (next.standing.to - next.standing.from) * next.strip.width ≤ length between.old }
    requires between { min (next.strip.height + (composition.reach.up + composition.reach.down)) (picture_in composition.f).height * next.strip.width ≤ length between.old }
    requires first { next.first ≤ next.strip.y }
    requires room { (next.strip.y - next.first) * next.strip.width + next.strip.height * next.strip.width ≤ length out.old }
    requires stands { HasImageRows P.level (rule_picture (first_made composition.composite) (picture_in composition.f)) next.standing.from next.standing.to between.old }
    ensures between { length between.new ≡ length between.old }
    ensures size { length out.new ≡ length out.old }
    ensures stands { IfOk result (λ done. done ≡ true → HasImageRows P.level (rule_picture (first_made composition.entry.composite) (picture_in composition.entry.f)) (seen_from composition.entry.reach next.strip) (seen_to (picture_in composition.entry.f).height composition.entry.reach next.strip) between.new) }
    ensures made { IfOk result (λ done. done ≡ true → HasImageRows P.level (composite_picture composition.entry.composite (picture_in composition.entry.f)) next.first next.strip.y out.old → HasImageRows P.level (composite_picture composition.entry.composite (picture_in composition.entry.f)) next.first (next.strip.y + next.strip.height) out.new) }
    ensures taken { next.standing.from ≡ next.standing.to → (picture_in composition.entry.f).maxval ≤ P.top_level → SuitComposite composition.entry.composite next.strip → IfOk result (λ done. done ≡ true) }
    ensures left_out { IfOk result (λ done. done ≡ false → out.new ≡ out.old) }
    ensures kept { IfErr result (λ _. out.new ≡ out.old) }
{
    let width = next.strip.width as usize;
    let start = (next.strip.y - next.first) as usize * width;
    let count = next.strip.height as usize * width;
    let stop = start + count;
    let rows = &mut out[start..stop];
    put_next(room, lent, composition, next, between, rows)
}

/// What is told of a strip to which memory is refused: that it is not made, where rows stand above it.
fn stop(y: u32, first: u32) -> Result<bool, NoMemory>
    ensures some { IfOk result (λ done. (done ≡ false) × (y ≢ first)) }
    ensures none { IfErr result (λ _. y ≡ first) }
{
    if y == first {
        return Err(NoMemory);
    }
    Ok(false)
}

/// The same, and where memory is refused behind other rows, it says that the strip is not made.
fn put_or_stop<P: Lendable>(
    room: &mut Room<P>,
    lent: &Lent<P>,
    composition: Composition<'_>,
    next: Next<P>,
    between: &mut [P],
    out: &mut [P],
) -> Result<bool, NoMemory>
    requires sound { IsComposition composition }
    requires view { IsWholeView P.level lent.now (picture_in composition.f) }
    requires top { (picture_in composition.f).maxval ≡ P.level next.top }
    requires strip { AreFrameRows next.strip (picture_in composition.f).width (picture_in composition.f).height }
    requires behind { next.standing.from ≤ seen_from composition.reach next.strip }
    requires joined { seen_from composition.reach next.strip ≤ next.standing.to }
    requires held { (next.standing.to - next.standing.from) * next.strip.width ≤ length between.old }
    requires between { min (next.strip.height + (composition.reach.up + composition.reach.down)) (picture_in composition.f).height * next.strip.width ≤ length between.old }
    requires first { next.first ≤ next.strip.y }
    requires room { (next.strip.y - next.first) * next.strip.width + next.strip.height * next.strip.width ≤ length out.old }
    requires stands { HasImageRows P.level (rule_picture (first_made composition.composite) (picture_in composition.f)) next.standing.from next.standing.to between.old }
    ensures between { length between.new ≡ length between.old }
    ensures size { length out.new ≡ length out.old }
    ensures stands { IfOk result (λ done. done ≡ true → HasImageRows P.level (rule_picture (first_made composition.entry.composite) (picture_in composition.entry.f)) (seen_from composition.entry.reach next.strip) (seen_to (picture_in composition.entry.f).height composition.entry.reach next.strip) between.new) }
    ensures made { IfOk result (λ done. done ≡ true → HasImageRows P.level (composite_picture composition.entry.composite (picture_in composition.entry.f)) next.first next.strip.y out.old → HasImageRows P.level (composite_picture composition.entry.composite (picture_in composition.entry.f)) next.first (next.strip.y + next.strip.height) out.new) }
    ensures taken { next.strip.y ≡ next.first → next.standing.from ≡ next.standing.to → (picture_in composition.entry.f).maxval ≤ P.top_level → SuitComposite composition.entry.composite next.strip → IfOk result (λ done. done ≡ true) }
    ensures left_out { IfOk result (λ done. done ≡ false → out.new ≡ out.old) }
    ensures none { IfErr result (λ _. next.strip.y ≡ next.first) }
    ensures kept { IfErr result (λ _. out.new ≡ out.old) }
{
    match put_next_behind(room, lent, composition, next, between, out) {
        Ok(done) => Ok(done),
        Err(NoMemory) => stop(next.strip.y, next.first),
    }
}

/// Rows of an image from the first on up to the end, how many of them a strip has at most, and the sample that changes no least.
#[derive(Clone, Copy)]
struct Stretch<P> {
    first: u32,
    end: u32,
    rows: u32,
    top: P,
}

/// How many rows the next strip has, where so many are left: those that are too many for one strip and too few for two are halved.
fn strip_height(rows: u32, left: u32) -> u32
    requires rows { 1 ≤ rows }
    requires left { 1 ≤ left }
    ensures some { 1 ≤ result }
    ensures most { result ≤ rows }
    ensures within { result ≤ left }
    ensures first { IsFirstHeight rows left result }
{
    if left <= rows {
        return left;
    }
    if left - rows < rows {
        return left - left / 2;
    }
    rows
}

/// The rows that stand once a strip is made.
fn stood_for(strip: Rect, reach: Reach, height: u32) -> Standing
    requires low { strip.y + strip.height ≤ height }
    ensures from { result.from ≡ seen_from reach strip }
    ensures to { result.to ≡ seen_to height reach strip }
{
    Standing {
        from: strip.y.saturating_sub(reach.up),
        to: (strip.y + strip.height)
            .saturating_add(reach.down)
            .min(height),
    }
}

/// Writes the rows strip by strip, as long as there are kernels and memory for that. Returns the row before which all are written.
fn put_strips<P: Lendable>(
    room: &mut Room<P>,
    lent: &Lent<P>,
    composition: Composition<'_>,
    stretch: Stretch<P>,
    between: &mut [P],
    out: &mut [P],
) -> Result<u32, NoMemory>
    requires sound { IsComposition composition }
    requires view { IsWholeView P.level lent.now (picture_in composition.f) }
    requires top { (picture_in composition.f).maxval ≡ P.level stretch.top }
    requires some { 1 ≤ stretch.rows }
    requires between { min (stretch.rows + (composition.reach.up + composition.reach.down)) (picture_in composition.f).height * (picture_in composition.f).width ≤ length between.old }
    requires rows { EndAt stretch.first stretch.end (length out.old) (picture_in composition.f) }
    ensures behind { IfOk result (λ to. stretch.first ≤ to) }
    ensures within { IfOk result (λ to. to ≤ stretch.end) }
    ensures made { IfOk result (λ to. HasImageRows P.level (composite_picture composition.entry.composite (picture_in composition.entry.f)) stretch.first to out.new) }
    ensures none { IfOk result (λ to. to ≡ stretch.first → out.new ≡ out.old) }
    ensures taken { (picture_in composition.entry.f).maxval ≤ P.top_level → ((r : Rect) → r.width ≡ (picture_in composition.entry.f).width → IsFirstHeight stretch.rows (stretch.end - stretch.first) r.height → SuitComposite composition.entry.composite r) → IfOk result (λ to. stretch.first < to) }
    ensures kept { IfErr result (λ _. out.new ≡ out.old) }
{
    let Stretch {
        first,
        end,
        rows,
        top,
    } = stretch;
    let reach = composition.reach;
    let (width, height) = (composition.f.width(), composition.f.height());
    let above = first.saturating_sub(reach.up);
    let mut standing = Standing {
        from: above,
        to: above,
    };
    let mut done = first;
    'strips: while done < end {
        let strip = Rect {
            x: 0,
            y: done,
            width,
            height: strip_height(rows, end - done),
        };
        let next = Next {
            strip,
            standing,
            first,
            top,
        };
        if !put_or_stop(room, lent, composition, next, between, out)? {
            return Ok(done);
        }
        standing = stood_for(strip, reach, height);
        done += strip.height;
    }
    Ok(done)
}

/// No more rows are looked at beyond a strip.
const FARTHEST: u32 = 255;

/// No kernel makes rows of fewer columns.
const NARROWEST: u32 = 32;

/// How many times as many rows a strip has as the greater element has beside one, where memory has room: a kernel lays out as many
/// more for each strip.
const TIMES: u32 = 8;

/// About how many bytes two elements take for each offset of a square of as many rows, and lists of chords more than under a lower one.
/// Where no rows are looked at beyond a strip it may be lower.
const BESIDES: u32 = 7;

/// How many bytes are wanted beside the rows of a strip, more than under a low element.
fn besides_of(most: u32, beyond: u32) -> u32 {
    let each = most.saturating_mul(most).saturating_mul(2);
    each.saturating_sub(beyond.saturating_mul(beyond))
        .saturating_mul(BESIDES)
}

/// How many bytes the rows between two steps have at most under elements so tall that a strip with what is wanted beside it has no room.
const LAST: u32 = 2359296;

/// How many rows a strip of about so many bytes has, where memory has no room for more.
fn few_rows(bytes: u32, row_size: u32, beyond: u32, height: u32) -> Option<u32>
    requires bytes { bytes ≤ 262144 }
    requires size { 1 ≤ row_size }
    requires few { beyond ≤ 255 }
    requires high { 1 ≤ height }
    ensures some { IfSome result (λ rows. 1 ≤ rows) }
    ensures low { IfSome result (λ rows. rows ≤ height) }
    ensures many { IfSome result (λ rows. min height (max 16 (bytes / row_size)) ≤ rows) }
{
    let rows = (bytes / row_size).max(16).min(height);
    if rows + beyond > LAST / row_size {
        return None;
    }
    Some(rows)
}

/// How many rows a strip of about so many bytes has: as many as memory has room for, or a few.
fn rows_within(
    bytes: u32,
    together: u32,
    besides: u32,
    row_size: u32,
    beyond: u32,
    height: u32,
) -> Option<u32>
    requires bytes { bytes ≤ 262144 }
    requires size { 1 ≤ row_size }
    requires few { beyond ≤ 255 }
    requires high { 1 ≤ height }
    ensures some { IfSome result (λ rows. 1 ≤ rows) }
    ensures low { IfSome result (λ rows. rows ≤ height) }
    ensures many { IfSome result (λ rows. min height (max 16 (bytes / row_size)) ≤ rows) }
    ensures fits { IfNone result ((5 * beyond + 16) * row_size ≤ 1703936 → ⊥) }
{
    match rows_of_strip(bytes, together, besides, row_size, beyond, height) {
        Some(rows) => Some(rows),
        None => few_rows(bytes, row_size, beyond, height),
    }
}

/// About how many bytes the rows of a strip have.
fn bytes_of_strip(composite: Composite<'_>) -> u32
    ensures most { result ≤ 262144 }
    ensures least { 131072 ≤ result }
{
    match composite {
        Composite::InTurn(_, _) => STRIP,
        Composite::Taken(_, _) => STRIP,
        Composite::Added(_, _) => STRIP,
        Composite::Less(_, _) => STRIP_LESS,
    }
}

/// What is made of an image, if that can be made here.
fn composition_of<'a>(composite: Composite<'a>, f: ArrayImage<'a>) -> Option<Composition<'a>>
    requires sound { IsArrayImage f }
    ensures sound { IfSome result IsComposition }
    ensures composite { IfSome result (λ c. c.composite ≡ composite.entry) }
    ensures image { IfSome result (λ c. c.f ≡ f.entry) }
    ensures low { IfSome result (λ c. c.reach.up + c.reach.down ≤ rows_beside (last_rule composite.entry)) }
    ensures none { IfNone result (AreElementRules composite.entry → rows_beside (last_rule composite.entry) ≤ 255 → 32 ≤ (picture_in f.entry).width → ⊥) }
{
    let Some(reach) = reach_beyond(composite) else {
        return None;
    };
    if reach.up > FARTHEST || reach.down > FARTHEST - reach.up {
        return None;
    }
    if f.width() < NARROWEST {
        return None;
    }
    Some(Composition {
        composite,
        f,
        reach,
    })
}

/// How many rows a strip has, of so many that are made in all.
fn rows_of(composition: Composition<'_>, count: u32) -> Option<u32>
    requires sound { IsComposition composition }
    requires some { 1 ≤ count }
    ensures some { IfSome result (λ rows. 1 ≤ rows) }
    ensures low { IfSome result (λ rows. rows ≤ count) }
    ensures many { IfSome result (λ rows. rows < count → (16 ≤ rows) × (131072 < (rows + 1) * (2 * (picture_in composition.entry.f).width))) }
    ensures none { IfNone result ((5 * (composition.entry.reach.up + composition.entry.reach.down) + 16) * (2 * (picture_in composition.entry.f).width) ≤ 1703936 → ⊥) }
{
    let Composition {
        composite,
        f,
        reach,
    } = composition;
    let beyond = reach.up + reach.down;
    let most = most_rows_beside(composite);
    rows_within(
        bytes_of_strip(composite),
        most.saturating_mul(TIMES),
        besides_of(most, beyond),
        row_size(f),
        beyond,
        count,
    )
}

/// Narrower images, and fewer rows of them, are sooner made in planes, where a second extremum looks at what a first one makes.
const COLUMNS: u32 = 128;

const ROWS: u32 = 64;

/// Whether it is sooner to fill planes.
fn is_small(composite: Composite<'_>, width: u32, rows: u32) -> bool
    ensures { 128 ≤ width → 64 ≤ rows → result ≡ false }
{
    match composite {
        Composite::InTurn(_, _) => width < COLUMNS || rows < ROWS,
        Composite::Taken(_, _) => width < COLUMNS || rows < ROWS,
        Composite::Added(_, _) => width < COLUMNS || rows < ROWS,
        Composite::Less(_, _) => false,
    }
}

/// Writes rows of what is made of an image, from row `first` on up to `end`, strip by strip, as long as there are kernels and memory
/// for that. Returns the row before which all are written: `first` where it writes nothing. It says that it wants memory (`NoMemory`)
/// only where it has written nothing.
pub fn put_composite<P: Lendable>(
    alloc: Global,
    composite: Composite<'_>,
    f: ArrayImage<'_>,
    first: u32,
    end: u32,
    out: &mut [P],
) -> Result<u32, NoMemory>
    requires sound { IsArrayImage f }
    requires rows { EndAt first end (length out.old) (picture_in f) }
    ensures behind { IfOk result (λ to. first ≤ to) }
    ensures within { IfOk result (λ to. to ≤ end) }
    ensures made { IfOk result (λ to. HasImageRows P.level (composite_picture composite.entry (picture_in f.entry)) first to out.new) }
    ensures none { IfOk result (λ to. to ≡ first → out.new ≡ out.old) }
    ensures taken { IsMadeByStrips P.top_level composite.entry f.entry first end → IfOk result (λ to. first < to) }
    ensures kept { IfErr result (λ _. out.new ≡ out.old) }
{
    let Some(samples) = P::grey(f) else {
        return Ok(first);
    };
    let Some(top) = P::of(f.maxval()) else {
        return Ok(first);
    };
    let (width, height) = (f.width(), f.height());
    if is_small(composite, width, end - first) {
        return Ok(first);
    }
    let Some(composition) = composition_of(composite, f) else {
        return Ok(first);
    };
    let Some(rows) = rows_of(composition, end - first) else {
        return Ok(first);
    };
    let reach = composition.reach;
    let held = (rows + (reach.up + reach.down)).min(height);
    let mut between = copies(alloc, held as usize * width as usize, top)?;
    let lent = Lent::new(width, height, whole_frame(width, height), samples);
    let stretch = Stretch {
        first,
        end,
        rows,
        top,
    };
    let mut room = Room::new(alloc);
    put_strips(
        &mut room,
        &lent,
        composition,
        stretch,
        between.as_mut_slice(),
        out,
    )
}
