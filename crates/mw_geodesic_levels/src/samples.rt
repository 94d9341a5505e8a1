//! Samples by their levels.

ghost use Rattle.std.specs.Prelude.{◌≡◌, ◌↔◌, ◌<◌, length, min, max, IsTrue};
ghost use Rattle.mw_geodesic_levels.specs.Levels.{level_numbered, IsPut};

use mw_pixel::Pixel;

/// The lesser of two samples.
#[inline(always)]
pub(crate) fn lesser<P: Pixel>(a: P, b: P) -> P
    ensures { P.level result ≡ min (P.level a) (P.level b) }
{
    if b.value() < a.value() { b } else { a }
}

/// The greater of two samples.
#[inline(always)]
pub(crate) fn greater<P: Pixel>(a: P, b: P) -> P
    ensures { P.level result ≡ max (P.level a) (P.level b) }
{
    if a.value() < b.value() { b } else { a }
}

/// Whether the first of two samples is the lesser one.
#[inline(always)]
pub(crate) fn is_below<P: Pixel>(a: P, b: P) -> bool
    ensures { IsTrue result ↔ (P.level a < P.level b) }
{
    a.value() < b.value()
}

/// The sample with a number.
#[inline(always)]
pub fn at<P: Pixel>(samples: &[P], i: usize) -> P
    requires { i < length samples.now }
    ensures { P.level result ≡ level_numbered P.level samples.now i }
{
    samples[i]
}

/// Sets the sample with a number.
#[inline(always)]
pub fn put<P: Pixel>(samples: &mut [P], i: usize, s: P)
    requires { i < length samples.old }
    ensures { IsPut (P.level s) i (level_numbered P.level samples.old) (level_numbered P.level samples.new) }
{
    samples[i] = s;
}
