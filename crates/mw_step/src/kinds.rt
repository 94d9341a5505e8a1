//! One body for windows of sets, and one for windows of levels of both types of samples.
//!
//! ```text
//! of_samples!(alloc, window, |set| inverted_set(alloc, set), |samples, maxval| inverted(alloc, maxval, samples))
//! ```

ghost use Rattle.std.specs.Prelude.{◌≡◌, ◌≤◌, IfOk};
ghost use Rattle.mw_model.specs.declared.shapes.Kind.TheVariants as kind;
ghost use Rattle.mw_model.specs.Pictures.{Picture};
ghost use Rattle.mw_step_task.specs.mw_pixel.Images.{set_of, grey_of};
ghost use Rattle.mw_step_task.specs.Products.{HoldsImage};

use mw_model::NoMemory;
use mw_step_task::TileResult;
use mw_step_task::pixel::{Bit, Pixel, Plane};
use mw_step_task::tile::{AnyWindow, Window, WindowView};
use std::alloc::Global;
use std::sync::Arc;

/// What is made by one body of a set, and by another of levels and the maxval of their source.
macro_rules! of_samples {
    ($alloc:expr, $window:expr, |$set:ident| $made:expr, |$samples:ident, $maxval:ident| $plane:expr) => {
        match $window.view() {
            mw_step_task::tile::WindowView::Bits($set) => {
                let plane = $made?;
                $crate::kinds::made_bits($alloc, plane)
            }
            mw_step_task::tile::WindowView::Grey8($samples, $maxval) => {
                let plane = $plane?;
                $crate::kinds::made_bytes($alloc, plane, $maxval)
            }
            mw_step_task::tile::WindowView::Grey16($samples, $maxval) => {
                let plane = $plane?;
                $crate::kinds::made_words($alloc, plane, $maxval)
            }
        }
    };
}

/// What is made by one body of two sets, and by another of the levels of two windows of one kind and maxval.
macro_rules! of_both {
    ($alloc:expr, $a:expr, $b:expr, |$set:ident, $other:ident| $made:expr, |$first:ident, $second:ident| $plane:expr) => {
        match $a.view() {
            mw_step_task::tile::WindowView::Bits($set) => {
                let $other = $crate::kinds::bits_of($b);
                let plane = $made?;
                $crate::kinds::made_bits($alloc, plane)
            }
            mw_step_task::tile::WindowView::Grey8($first, maxval) => {
                let $second = $crate::kinds::bytes_of($b, maxval);
                let plane = $plane?;
                $crate::kinds::made_bytes($alloc, plane, maxval)
            }
            mw_step_task::tile::WindowView::Grey16($first, maxval) => {
                let $second = $crate::kinds::words_of($b);
                let plane = $plane?;
                $crate::kinds::made_words($alloc, plane, maxval)
            }
        }
    };
}

pub(crate) use of_both;
pub(crate) use of_samples;

/// The set, in a plane that others can own too.
pub(crate) fn made_bits(alloc: Global, plane: Plane<Bit>) -> Result<TileResult, NoMemory>
    ensures { (f : Picture) → f ≡ set_of plane → IfOk result (HoldsImage f) }
{
    Ok(TileResult::Bits(Arc::new(alloc, plane)?))
}

/// The image of levels of one byte, in a plane that others can own too.
pub(crate) fn made_bytes(
    alloc: Global,
    plane: Plane<u8>,
    maxval: u8,
) -> Result<TileResult, NoMemory>
    requires { 1 ≤ maxval }
    ensures { (f : Picture) → f ≡ grey_of plane maxval → IfOk result (HoldsImage f) }
{
    Ok(TileResult::Grey8(Arc::new(alloc, plane)?, maxval))
}

/// The image of levels of two bytes, in a plane that others can own too.
pub(crate) fn made_words(
    alloc: Global,
    plane: Plane<u16>,
    maxval: u16,
) -> Result<TileResult, NoMemory>
    requires { 256 ≤ maxval }
    ensures { (f : Picture) → f ≡ grey_of plane maxval → IfOk result (HoldsImage f) }
{
    Ok(TileResult::Grey16(Arc::new(alloc, plane)?, maxval))
}

/// The sample of a level that is not over the maxval.
pub(crate) fn sample_of<P: Pixel>(level: u16, maxval: P) -> P
    requires { level ≤ P.level maxval }
    ensures { P.level result ≡ level }
{
    // for its range
    let _top = maxval.value();
    match P::of(level) {
        Some(sample) => sample,
        None => unreachable!(),
    }
}

/// The window of a set.
pub(crate) fn bits_of(window: &AnyWindow) -> &Window<Bit>
    requires { window.now.kind ≡ kind.Bit }
    ensures { result.now ≡ window.now.view }
{
    match window.view() {
        WindowView::Bits(w) => w,
        WindowView::Grey8(_, _) => unreachable!(),
        WindowView::Grey16(_, _) => unreachable!(),
    }
}

/// The window of levels of grey up to a maxval of one byte.
pub(crate) fn bytes_of(window: &AnyWindow, maxval: u8) -> &Window<u8>
    requires kind { window.now.kind ≡ kind.Grey }
    requires maxval { window.now.maxval ≡ maxval }
    ensures { result.now ≡ window.now.view }
{
    match window.view() {
        WindowView::Bits(_) => unreachable!(),
        WindowView::Grey8(w, _) => w,
        WindowView::Grey16(_, _) => unreachable!(),
    }
}

/// The window of levels of grey up to more than 255.
pub(crate) fn words_of(window: &AnyWindow) -> &Window<u16>
    requires kind { window.now.kind ≡ kind.Grey }
    requires maxval { 256 ≤ window.now.maxval }
    ensures { result.now ≡ window.now.view }
{
    match window.view() {
        WindowView::Bits(_) => unreachable!(),
        WindowView::Grey8(_, _) => unreachable!(),
        WindowView::Grey16(w, _) => w,
    }
}
