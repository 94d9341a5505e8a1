//! Elements of bitmaps.

ghost use Rattle.std.specs.Prelude.{◌≡◌, ◌↔◌, ℕ, ◌+◌, ◌<◌, ◌≤◌, ◌++◌, length, vec_capacity, vec_len, IfOk, IsTrue};
ghost use Rattle.mw_model.specs.Bitmaps.{SidesFit};
ghost use Rattle.mw_model.specs.Elements.{HoldsPlace, element_side, offset_from, offsets_in_row, offsets_of};

use crate::{Element, ElementFault};
use mw_model::{ELEMENT_SIDE_LIMIT, NoMemory, Offset};
use mw_netpbm_plain::BitmapFault;
use mw_netpbm_plain::pixel::{Bit, Plane};
use std::alloc::Global;

/// The offset of column x of row y, seen from the origin.
fn seen_from(ox: u32, oy: u32, x: u32, y: u32) -> Offset
    requires origin { (ox ≤ ELEMENT_SIDE_LIMIT) × (oy ≤ ELEMENT_SIDE_LIMIT) }
    requires place { (x ≤ ELEMENT_SIDE_LIMIT) × (y ≤ ELEMENT_SIDE_LIMIT) }
    ensures { result ≡ offset_from ox oy x y }
{
    Offset {
        dx: x as i16 - ox as i16,
        dy: y as i16 - oy as i16,
    }
}

/// Adds the offsets of a row of the bitmap, seen from the origin, where there is room for them.
fn push_row(out: &mut Vec<Offset>, bitmap: &Plane<Bit>, ox: u32, oy: u32, y: u32)
    requires wide { bitmap.now.width ≤ ELEMENT_SIDE_LIMIT }
    requires high { bitmap.now.height ≤ ELEMENT_SIDE_LIMIT }
    requires column { ox ≤ ELEMENT_SIDE_LIMIT }
    requires row { oy ≤ ELEMENT_SIDE_LIMIT }
    requires inside { y < bitmap.now.height }
    requires room { vec_len out.old + length (offsets_in_row bitmap.now ox oy y) ≤ vec_capacity out.old }
    ensures items { out.new.items ≡ out.old.items ++ offsets_in_row bitmap.now ox oy y }
    ensures kept { vec_capacity out.new ≡ vec_capacity out.old }
{
    'columns: for x in 0..bitmap.width() {
        if bitmap.at(x, y).is_set() {
            out.push_reserved(seen_from(ox, oy, x, y));
        }
    }
}

/// The offsets of a bitmap, by rows, seen from the origin, in as much memory as they take.
pub(crate) fn offsets(
    alloc: Global,
    bitmap: &Plane<Bit>,
    ox: u32,
    oy: u32,
    count: usize,
) -> Result<Vec<Offset>, NoMemory>
    requires wide { bitmap.now.width ≤ ELEMENT_SIDE_LIMIT }
    requires high { bitmap.now.height ≤ ELEMENT_SIDE_LIMIT }
    requires column { ox ≤ ELEMENT_SIDE_LIMIT }
    requires row { oy ≤ ELEMENT_SIDE_LIMIT }
    requires count { length (offsets_of bitmap.now ox oy) ≡ count }
    ensures items { IfOk result (λ v. v.items ≡ offsets_of bitmap.now ox oy) }
    ensures few { IfOk result (λ v. vec_capacity v ≤ count) }
{
    let mut out = Vec::with_capacity(alloc, count)?;
    'rows: for y in 0..bitmap.height() {
        push_row(&mut out, bitmap, ox, oy, y);
    }
    Ok(out)
}

/// How many offsets a row has, wherever the origin is.
fn count_row(bitmap: &Plane<Bit>, y: u32) -> usize
    requires inside { y < bitmap.now.height }
    ensures value { result ≡ length (offsets_in_row bitmap.now 0 0 y) }
    ensures few { result ≤ bitmap.now.width }
{
    let mut count: usize = 0;
    'columns: for x in 0..bitmap.width() {
        if bitmap.at(x, y).is_set() {
            count += 1;
        }
    }
    count
}

/// How many offsets the bitmap has, wherever the origin is.
fn count(bitmap: &Plane<Bit>) -> usize
    requires wide { bitmap.now.width ≤ ELEMENT_SIDE_LIMIT }
    requires high { bitmap.now.height ≤ ELEMENT_SIDE_LIMIT }
    ensures { (ox oy : ℕ) → length (offsets_of bitmap.now ox oy) ≡ result }
{
    let mut count: usize = 0;
    'rows: for y in 0..bitmap.height() {
        count += count_row(bitmap, y);
    }
    count
}

/// Whether there is a pixel, and no side is over the limit.
fn sides_fit(bitmap: &Plane<Bit>) -> bool
    ensures { IsTrue result ↔ SidesFit element_side bitmap.now.width bitmap.now.height }
{
    let (width, height) = (bitmap.width(), bitmap.height());
    width > 0 && height > 0 && width <= ELEMENT_SIDE_LIMIT && height <= ELEMENT_SIDE_LIMIT
}

/// Whether the origin lies in the bitmap.
fn holds_place(bitmap: &Plane<Bit>, ox: u32, oy: u32) -> bool
    ensures { IsTrue result ↔ HoldsPlace bitmap.now ox oy }
{
    ox < bitmap.width() && oy < bitmap.height()
}

impl Element {
    ghost use Rattle.std.specs.Prelude.{◌≡◌, ◌≢◌, IfOk, IfErr, MatchResult, Err};
    ghost use Rattle.mw_model.specs.Elements.{Figure};
    ghost use Rattle.mw_element.specs.BitmapElements.{IsElementOf, IsNoElement};
    ghost use Rattle.mw_element.specs.Faults.{element_code_of};

    /// The element that the bitmap is, with its origin in column `ox` and row `oy`, or the first case by which it is none.
    pub fn of_bitmap(
        alloc: Global,
        bitmap: &Plane<Bit>,
        ox: u32,
        oy: u32,
    ) -> Result<Element, ElementFault>
        ensures found { IfOk result (λ e. IsElementOf bitmap.now ox oy e) }
        // An element is found, unless memory runs out.
        ensures only { (figure : Figure) → IsElementOf bitmap.now ox oy figure → MatchResult result (λ e. e ≡ figure) (λ f. f ≡ ElementFault.NoMemory) }
        ensures refused { IfErr result (λ f. f ≢ ElementFault.NoMemory → IsNoElement bitmap.now ox oy (element_code_of f)) }
        // Memory is wanting only where the bitmap is an element.
        ensures memory { result ≡ Err ElementFault.NoMemory → (figure : Figure) × IsElementOf bitmap.now ox oy figure }
    {
        if !sides_fit(bitmap) {
            return Err(ElementFault::Bitmap(BitmapFault::Size));
        }
        if !holds_place(bitmap, ox, oy) {
            return Err(ElementFault::Origin);
        }
        let count = count(bitmap);
        if count == 0 {
            return Err(ElementFault::Empty);
        }
        let found = offsets(alloc, bitmap, ox, oy, count)?;
        let made = Element::new(alloc, bitmap.width(), bitmap.height(), found)?;
        Ok(made)
    }
}
