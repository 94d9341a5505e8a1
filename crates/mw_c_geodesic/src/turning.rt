//! Complements of sets.

ghost use Rattle.std.specs.Prelude.{◌≡◌, ◌-◌, ◌*◌, ◌≤◌, length, map, IfOk};
ghost use Rattle.mw_model.specs.Flat.{complement};
ghost use Rattle.mw_model.specs.Pictures.{IsImage};
ghost use Rattle.mw_model.specs.declared.shapes.Kind.TheVariants as kind;

use mw_c_arrays::{NoMemory, Set, put_bytes};
use mw_pixel::Image;
use std::alloc::Global;

/// Turns samples of one byte over.
fn turn_bytes(samples: &mut [u8], top: u8)
    ensures { samples.new ≡ map (λ s. top - s) samples.old }
{
    for i in 0..samples.len() {
        samples[i] = top.saturating_sub(samples[i]);
    }
}

/// The pixels of a set, turned over.
fn bytes_turned(alloc: Global, image: &Image) -> Result<Vec<u8>, NoMemory>
    requires image { IsImage image.now }
    requires low { image.now.maxval ≤ 255 }
    ensures { IfOk result (λ r. r.items ≡ map (λ s. image.now.maxval - s) image.now.samples) }
{
    let count = image.height() as usize * image.width() as usize;
    let mut samples = vec![in alloc; 0u8; count]?;
    put_bytes(image, &mut samples);
    turn_bytes(&mut samples, image.maxval() as u8);
    Ok(samples)
}

/// The complement of a set. It may want memory (`NoMemory`).
pub(crate) fn turned(alloc: Global, image: &Image) -> Result<Image, NoMemory>
    requires image { IsImage image.now }
    requires kind { image.now.kind ≡ kind.Bit }
    ensures { IfOk result (λ g. g ≡ complement image.now) }
{
    let pixels = bytes_turned(alloc, image)?;
    let set = Set {
        pixels: &pixels,
        width: image.width(),
        height: image.height(),
    };
    set.image(alloc)
}
