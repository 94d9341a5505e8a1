//! Planes that are made place by place from windows of one place.

ghost use Rattle.std.specs.Prelude.{◌≡◌, ◌*◌, length, replicate, IfOk};
ghost use lib.Lanes.{zip2};

use mw_model::NoMemory;
use mw_rank_bits::lane::{Lanes, combine_rows, subtract_rows};
use mw_step_task::pixel::{Extremum, Grey, Plane};
use mw_step_task::tile::Window;
use std::alloc::Global;

/// Each sample of the first window less that of the second, stopping at 0.
pub(crate) fn differences<P: Lanes + Grey>(
    alloc: Global,
    a: &Window<P>,
    b: &Window<P>,
) -> Result<Plane<P>, NoMemory>
    requires { a.now.place ≡ b.now.place }
    ensures width { IfOk result (λ p. p.width ≡ a.now.place.width) }
    ensures height { IfOk result (λ p. p.height ≡ a.now.place.height) }
    ensures cells { IfOk result (λ p. p.cells ≡ zip2 P.difference a.now.cells b.now.cells) }
    ensures first { length a.now.cells ≡ a.now.place.height * a.now.place.width }
    ensures second { length b.now.cells ≡ a.now.place.height * a.now.place.width }
{
    let place = a.place();
    let other = b.samples();
    let mut samples = Vec::from_slice(alloc, a.samples())?;
    subtract_rows(&mut samples, other);
    Ok(Plane::new(place.width, place.height, samples))
}

/// The extremum of each pair of samples.
pub(crate) fn merged<P: Grey, E: Extremum<P>>(
    alloc: Global,
    a: &Window<P>,
    b: &Window<P>,
) -> Result<Plane<P>, NoMemory>
    requires { a.now.place ≡ b.now.place }
    ensures width { IfOk result (λ p. p.width ≡ a.now.place.width) }
    ensures height { IfOk result (λ p. p.height ≡ a.now.place.height) }
    ensures cells { IfOk result (λ p. p.cells ≡ zip2 E.merge a.now.cells b.now.cells) }
    ensures first { length a.now.cells ≡ a.now.place.height * a.now.place.width }
    ensures second { length b.now.cells ≡ a.now.place.height * a.now.place.width }
{
    let place = a.place();
    let other = b.samples();
    let mut samples = Vec::from_slice(alloc, a.samples())?;
    combine_rows::<P, E>(&mut samples, other);
    Ok(Plane::new(place.width, place.height, samples))
}

/// The top less each sample.
pub(crate) fn inverted<P: Lanes + Grey>(
    alloc: Global,
    top: P,
    a: &Window<P>,
) -> Result<Plane<P>, NoMemory>
    ensures width { IfOk result (λ p. p.width ≡ a.now.place.width) }
    ensures height { IfOk result (λ p. p.height ≡ a.now.place.height) }
    ensures cells { IfOk result (λ p. p.cells ≡ zip2 P.difference (replicate (a.now.place.height * a.now.place.width) top) a.now.cells) }
    ensures size { length a.now.cells ≡ a.now.place.height * a.now.place.width }
{
    let place = a.place();
    let other = a.samples();
    let plane = Plane::filled(alloc, place.width, place.height, top)?;
    let mut samples = plane.into_samples();
    subtract_rows(&mut samples, other);
    Ok(Plane::new(place.width, place.height, samples))
}
