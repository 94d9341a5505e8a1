//! Rows of an extremum under an element of any shape, which stand in a buffer for a second one. The buffer slides down the image: rows
//! that the next strip looks at as well are moved to its front, and those alone are made that are lacking.

ghost use Rattle.std.specs.Prelude.{◌≡◌, ◌+◌, ◌-◌, ◌*◌, ◌≤◌, length, min, IfOk, true};
ghost use Rattle.mw_model.specs.declared.offsets.Rect.{Rect};
ghost use Rattle.mw_c_arrays.specs.Sources.{IsArrayImage, picture_in};
ghost use Rattle.mw_c_lent.specs.InPlace.{IsWholeView};
ghost use Rattle.mw_c_lent.specs.Rows.{HasImageRows};
ghost use Rattle.mw_c_lent.specs.Rules.{rule_picture};
ghost use Rattle.mw_c_lent.specs.Slides.{AreFrameRows};
ghost use Rattle.mw_c_lent.specs.Standing.{seen_from, seen_to};
ghost use Rattle.mw_c_lent.specs.Suited.{SuitRule};

use crate::in_place::put_tile;
use crate::lendable::Lendable;
use crate::rules::Rule;
use crate::standing::{Standing, move_to_front};
use mw_c_arrays::ArrayImage;
use mw_grid::grown;
use mw_line_lent::Room;
use mw_model::{NoMemory, Reach, Rect};
use mw_rank_lent::Lent;

/// The extremum of an image whose rows stand, and how far beyond a strip they are looked at.
#[derive(Clone, Copy)]
pub(crate) struct Source<'a> {
    pub rule: Rule<'a>,
    pub f: ArrayImage<'a>,
    pub reach: Reach,
}

/// No fewer rows and samples are made at once, where so many are looked at: kernels refuse less.
const ROWS: u32 = 8;

const SAMPLES: u32 = 32768;

/// From which row on rows are made before row `end`: from the first that is lacking, or further up where these are few.
fn made_from(standing: Standing, width: u32, end: u32) -> u32
    requires joined { standing.from ≤ standing.to }
    ensures behind { standing.from ≤ result }
    ensures before { result ≤ standing.to }
{
    let rows = ROWS.max(SAMPLES / width.max(1));
    standing.to.min(end.saturating_sub(rows).max(standing.from))
}

/// Makes the rows that are lacking behind those that stand, before row `end`, if there is a kernel for that.
fn make_lacking<P: Lendable>(
    room: &mut Room<P>,
    lent: &Lent<P>,
    source: Source<'_>,
    standing: Standing,
    end: u32,
    between: &mut [P],
) -> Result<bool, NoMemory>
    requires sound { IsArrayImage source.f }
    requires view { IsWholeView P.level lent.now (picture_in source.f) }
    requires joined { standing.from ≤ standing.to }
    requires low { end ≤ (picture_in source.f).height }
    requires held { (end - standing.from) * (picture_in source.f).width ≤ length between.old }
    requires stands { HasImageRows P.level (rule_picture source.rule (picture_in source.f)) standing.from standing.to between.old }
    ensures between { length between.new ≡ length between.old }
    ensures made { IfOk result (λ done. done ≡ true → HasImageRows P.level (rule_picture source.entry.rule (picture_in source.entry.f)) standing.from end between.new) }
    ensures taken { standing.from ≡ standing.to → (picture_in source.entry.f).maxval ≤ P.top_level → (r : Rect) → r.width ≡ (picture_in source.entry.f).width → r.height ≤ end - standing.from → SuitRule source.entry.rule r → IfOk result (λ done. done ≡ true) }
{
    if standing.to >= end {
        return Ok(true);
    }
    let width = source.f.width();
    let from = made_from(standing, width, end);
    let tile = Rect {
        x: 0,
        y: from,
        width,
        height: end - from,
    };
    let start = (from - standing.from) as usize * width as usize;
    let count = tile.height as usize * width as usize;
    let stop = start + count;
    let rows = &mut between[start..stop];
    put_tile(room, source.rule, lent, source.f.maxval(), tile, rows)
}

/// Lets those rows stand that are looked at for a strip, where some stand for the strip before, if there is a kernel for that.
pub(crate) fn let_stand<P: Lendable>(
    room: &mut Room<P>,
    lent: &Lent<P>,
    source: Source<'_>,
    strip: Rect,
    standing: Standing,
    between: &mut [P],
) -> Result<bool, NoMemory>
    requires sound { IsArrayImage source.f }
    requires view { IsWholeView P.level lent.now (picture_in source.f) }
    requires strip { AreFrameRows strip (picture_in source.f).width (picture_in source.f).height }
    requires behind { standing.from ≤ seen_from source.reach strip }
    requires joined { seen_from source.reach strip ≤ standing.to }
    requires held { (standing.to - standing.from) * strip.width ≤ length between.old }
    requires between { min (strip.height + (source.reach.up + source.reach.down)) (picture_in source.f).height * strip.width ≤ length between.old }
    requires stands { HasImageRows P.level (rule_picture source.rule (picture_in source.f)) standing.from standing.to between.old }
    ensures between { length between.new ≡ length between.old }
    ensures made { IfOk result (λ done. done ≡ true → HasImageRows P.level (rule_picture source.entry.rule (picture_in source.entry.f)) (seen_from source.entry.reach strip) (seen_to (picture_in source.entry.f).height source.entry.reach strip) between.new) }
    ensures taken { standing.from ≡ standing.to → (picture_in source.entry.f).maxval ≤ P.top_level → SuitRule source.entry.rule strip → IfOk result (λ done. done ≡ true) }
{
    let (width, height) = (source.f.width(), source.f.height());
    let place = grown(strip, source.reach, width, height);
    move_to_front(standing, place.y, strip.width, between);
    let kept = Standing {
        from: place.y,
        to: standing.to,
    };
    make_lacking(room, lent, source, kept, place.y + place.height, between)
}
