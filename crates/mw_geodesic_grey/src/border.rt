//! The border of an image without what it surrounds.

ghost use Rattle.std.specs.Prelude.{◌≡◌, ℕ, ◌+◌, ◌*◌, ◌<◌, ◌≤◌, ◌⊎◌, length};
ghost use Rattle.mw_geodesic.specs.Reconstructions.{border_over};
ghost use Rattle.mw_geodesic_grey.specs.Places.{kept_at_border};
ghost use Rattle.mw_geodesic_levels.specs.Levels.{level_numbered};
ghost use Rattle.mw_geodesic_levels.specs.Pictures.{picture_by};

use crate::passes::sample_of;
use mw_pixel::{Grey, Pixel, Plane};

/// The samples from one number up to another become the lowest.
fn clear_run<P: Pixel>(samples: &mut [P], from: usize, to: usize)
    requires ordered { from ≤ to }
    requires within { to ≤ length samples.old }
    ensures inside { (i : ℕ) → from ≤ i → i < to → level_numbered P.level samples.new i ≡ 0 }
    ensures outside { (i : ℕ) → i < from ⊎ to ≤ i → level_numbered P.level samples.new i ≡ level_numbered P.level samples.old i }
{
    for i in from..to {
        samples[i] = sample_of(0);
    }
}

/// The samples that do not stand at the border of the frame become the lowest.
fn clear_inside<P: Pixel>(samples: &mut [P], width: u32, height: u32)
    requires { length samples.old ≡ height * width }
    ensures { (x y : ℕ) → x < width → y < height → level_numbered P.level samples.new (y * width + x) ≡ kept_at_border width height x y (level_numbered P.level samples.old (y * width + x)) }
{
    if width < 2 {
        return;
    }
    let wide = width as usize;
    for y in 1..height.saturating_sub(1) {
        let start = y as usize * wide;
        clear_run(samples, start + 1, start + wide - 1);
    }
}

/// The image at the border of the frame, and 0 within.
pub(crate) fn border_over_nothing<P: Grey>(plane: Plane<P>) -> Plane<P>
    ensures width { result.width ≡ plane.width }
    ensures height { result.height ≡ plane.height }
    ensures picture { (maxval : ℕ) → picture_by P.level maxval result ≡ border_over 0 (picture_by P.level maxval plane) }
{
    let (width, height) = (plane.width(), plane.height());
    let mut samples = plane.into_samples();
    clear_inside(samples.as_mut_slice(), width, height);
    Plane::new(width, height, samples)
}
