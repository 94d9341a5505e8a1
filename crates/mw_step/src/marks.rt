//! Steps that mark the places of sets with a level. Where no place is to be marked, the first source is made again.

ghost use Rattle.std.specs.Prelude.{◌≡◌, ◌*◌, ◌≤◌, ◌==◌, ◌&&◌, if◌then◌else◌, length, IfOk};
ghost use lib.Lanes.{zip2};
ghost use Rattle.mw_model.specs.declared.shapes.Kind.TheVariants as kind;
ghost use Rattle.mw_step_task.specs.Products.{HoldsImage, both_drawn, three_drawn, plane_drawn};

use crate::kinds::{bits_of, of_samples, sample_of};
use crate::painting::{marked, marked_set, without};
use crate::sharing::shared;
use mw_model::NoMemory;
use mw_rank_bits::bits::{is_blank, is_within};
use mw_step_task::TileResult;
use mw_step_task::pieces::SharedWindow;
use mw_step_task::pixel::Bit;
use mw_step_task::tile::{AnyWindow, Window};
use std::alloc::Global;

/// The samples, with level `v` in each place of the set.
fn mark_places(
    alloc: Global,
    v: u16,
    a: &AnyWindow,
    places: &Window<Bit>,
) -> Result<TileResult, NoMemory>
    requires place { a.now.view.place ≡ places.now.place }
    requires level { v ≤ a.now.maxval }
    ensures held { IfOk result (HoldsImage (plane_drawn a.now.kind a.now.maxval a.now.view.place (zip2 (λ s m. if m == 1 then v else s) a.now.view.cells places.now.cells))) }
    ensures fills { IfOk result (λ _. length a.now.view.cells ≡ a.now.view.place.height * a.now.view.place.width) }
{
    of_samples!(
        alloc,
        a,
        |set| marked_set(alloc, v, set, places),
        |samples, maxval| marked(alloc, sample_of(v, maxval), samples, places)
    )
}

/// The first source, with level `v` where the set is.
pub(crate) fn mark_last(
    alloc: Global,
    v: u16,
    held: &SharedWindow,
    a: &AnyWindow,
    set: &AnyWindow,
) -> Result<TileResult, NoMemory>
    requires held { held.now ≡ a.now }
    requires place { a.now.view.place ≡ set.now.view.place }
    requires level { v ≤ a.now.maxval }
    requires set { set.now.kind ≡ kind.Bit }
    ensures { IfOk result (HoldsImage (both_drawn a.now.kind a.now.maxval (λ s m. if m == 1 then v else s) a.now.view set.now.view)) }
{
    let places = bits_of(set);
    if is_blank(places) {
        if let Some(made) = shared(held)? {
            return Ok(made);
        }
    }
    mark_places(alloc, v, a, places)
}

/// The first source, with level `v` where the set is and the other is not.
pub(crate) fn mark(
    alloc: Global,
    v: u16,
    held: &SharedWindow,
    a: &AnyWindow,
    set: &AnyWindow,
    other: &AnyWindow,
) -> Result<TileResult, NoMemory>
    requires held { held.now ≡ a.now }
    requires place { a.now.view.place ≡ set.now.view.place }
    requires other_place { set.now.view.place ≡ other.now.view.place }
    requires level { v ≤ a.now.maxval }
    requires set { set.now.kind ≡ kind.Bit }
    requires other { other.now.kind ≡ kind.Bit }
    ensures { IfOk result (HoldsImage (three_drawn a.now.kind a.now.maxval (λ s m n. if m == 1 && n == 0 then v else s) a.now.view set.now.view other.now.view)) }
{
    let (places, others) = (bits_of(set), bits_of(other));
    if is_within(places, others) {
        if let Some(made) = shared(held)? {
            return Ok(made);
        }
    }
    let rest = without(alloc, places, others)?;
    mark_places(alloc, v, a, &rest)
}
