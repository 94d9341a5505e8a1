//! The rank filter, by counting.

ghost use Rattle.std.specs.Prelude.{◌≡◌, ◌↔◌, ◌+◌, ◌-◌, ◌<◌, ◌≤◌, IfOk, IsTrue, min, length, count_by, nat_lt, slice_index};
ghost use Rattle.std.specs.Option.{option_to_list};
ghost use Rattle.mw_model.specs.Flat.{under, rank, in_rising_order};

use crate::ReferenceImage;
use crate::elements::Element;
use crate::pixels::{Pixels, redraw};
use mw_model::{NoMemory, Offset};
use std::alloc::Global;

/// 1 for a sample, and 0 for none.
fn one_seen(seen: Option<u16>) -> usize
    ensures is { result ≡ length (option_to_list seen) }
    ensures small { result ≤ 1 }
{
    match seen {
        Some(_) => 1,
        None => 0,
    }
}

/// 1 for a sample below the limit, else 0.
fn one_below(seen: Option<u16>, limit: u32) -> usize
    ensures is { result ≡ count_by (λ s. nat_lt s limit) (option_to_list seen) }
    ensures small { result ≤ 1 }
{
    match seen {
        Some(s) if u32::from(s) < limit => 1,
        _ => 0,
    }
}

/// How many samples are under the element.
#[tactic(auto, using(crate::proofs::Loops::all_samples))]
fn count_seen(image: &ReferenceImage, element: &Element, x: u32, y: u32) -> usize
    ensures { result ≡ length (under image.now element.now x y) }
{
    let mut count = 0;
    for i in 0..element.size() {
        count += one_seen(element.sample_under(i, image, x, y));
    }
    count
}

/// How many samples under the element are below the limit.
#[tactic(auto, using(crate::proofs::Loops::all_samples))]
fn count_below(image: &ReferenceImage, element: &Element, x: u32, y: u32, limit: u32) -> usize
    ensures { result ≡ count_by (λ s. nat_lt s limit) (under image.now element.now x y) }
{
    let mut count = 0;
    for i in 0..element.size() {
        count += one_below(element.sample_under(i, image, x, y), limit);
    }
    count
}

/// Fewer than n samples under the element are below this one, and n or more are not above it.
fn is_nth(image: &ReferenceImage, element: &Element, x: u32, y: u32, n: usize, s: u16) -> bool
    ensures { IsTrue result ↔ ((count_by (λ t. nat_lt t s) (under image.now element.now x y) < n) × (n ≤ count_by (λ t. nat_lt t (s + 1)) (under image.now element.now x y))) }
{
    let fewer = count_below(image, element, x, y, u32::from(s));
    let enough = count_below(image, element, x, y, u32::from(s) + 1);
    fewer < n && n <= enough
}

/// Of the samples under the element in rising order number k, or the last where there are fewer.
fn nth_under(image: &ReferenceImage, element: &Element, x: u32, y: u32, k: u32) -> u16
    ensures { let found = under image.now element.now x y in result ≡ slice_index (in_rising_order found) (min k (length found) - 1) }
{
    let n = count_seen(image, element, x, y).min(k as usize).max(1);
    for i in 0..element.size() {
        if let Some(s) = element.sample_under(i, image, x, y) {
            if is_nth(image, element, x, y, n, s) {
                return s;
            }
        }
    }
    0
}

#[derive(Drop)]
struct Nth<'a> {
    image: &'a ReferenceImage,
    element: &'a Element<'a>,
    k: u32,
}

impl Pixels for Nth<'_> {
    ghost value = { λ a x y. let found = under a.image.now a.element.now x y in slice_index (in_rising_order found) (min a.k (length found) - 1) };

    fn at(&self, x: u32, y: u32) -> u16 {
        nth_under(self.image, self.element, x, y, self.k)
    }
}

/// The rank filter by an element as it lies.
fn nth_samples(
    alloc: Global,
    image: &ReferenceImage,
    element: &Element,
    k: u32,
) -> Result<ReferenceImage, NoMemory>
    ensures { IfOk result (λ r. r ≡ rank element.now k image.now) }
{
    redraw(alloc, image, &Nth { image, element, k })
}

/// At each pixel, of the samples under the element in rising order number k, counted from 1, or the last where there
/// are fewer; 0 where there is none.
pub fn rank(
    alloc: Global,
    image: &ReferenceImage,
    element: &[Offset],
    k: u32,
) -> Result<ReferenceImage, NoMemory>
    ensures { IfOk result (λ r. r ≡ rank element.now k image.now) }
{
    nth_samples(alloc, image, &Element::upright(element), k)
}
