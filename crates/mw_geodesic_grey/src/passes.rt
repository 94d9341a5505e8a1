//! Passes over samples, in place, by their levels.

ghost use Rattle.std.specs.Prelude.{◌≡◌, ℕ, ◌-◌, ◌<◌, ◌≤◌, length};
ghost use Rattle.mw_geodesic_levels.specs.Levels.{level_numbered};

use mw_pixel::Pixel;

/// The sample of a level.
#[inline(always)]
pub(crate) fn sample_of<P: Pixel>(level: u16) -> P
    requires { level ≤ P.top_level }
    ensures { P.level result ≡ level }
{
    match P::of(level) {
        Some(sample) => sample,
        None => unreachable!(),
    }
}

/// Each level becomes what the maxval is over it.
pub(crate) fn turn<P: Pixel>(samples: &mut [P], maxval: u16)
    requires { maxval ≤ P.top_level }
    ensures { (i : ℕ) → i < length samples.old → level_numbered P.level samples.new i ≡ maxval - level_numbered P.level samples.old i }
{
    for i in 0..samples.len() {
        samples[i] = sample_of(maxval.saturating_sub(samples[i].value()));
    }
}

/// Each level is lowered by h, stopping at 0.
pub(crate) fn lower<P: Pixel>(samples: &mut [P], h: u16)
    ensures { (i : ℕ) → i < length samples.old → level_numbered P.level samples.new i ≡ level_numbered P.level samples.old i - h }
{
    for i in 0..samples.len() {
        samples[i] = sample_of(samples[i].value().saturating_sub(h));
    }
}

/// Each level becomes what that of the image is over it.
pub(crate) fn take_from<P: Pixel>(image: &[P], samples: &mut [P])
    requires { length image.now ≡ length samples.old }
    ensures { (i : ℕ) → i < length samples.old → level_numbered P.level samples.new i ≡ level_numbered P.level image.now i - level_numbered P.level samples.old i }
{
    for i in 0..samples.len() {
        let level = image[i].value();
        samples[i] = sample_of(level.saturating_sub(samples[i].value()));
    }
}
