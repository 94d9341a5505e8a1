//! Reconstruction by dilation: the marker, cut to the mask, raised until no place can be raised.

ghost use Rattle.std.specs.Prelude.{◌≡◌, ℕ, ◌*◌, ◌<◌, length, min, IfOk, OnOk};
ghost use Rattle.mw_geodesic.specs.Geodesics.{reconstruction};
ghost use Rattle.mw_geodesic_levels.specs.Levels.{level_numbered, IsRebuilt};
ghost use Rattle.mw_geodesic.specs.Neighbours.{neighbours_of};
ghost use Rattle.mw_geodesic_levels.specs.Pictures.{picture_by};

use crate::frame::Frame;
use crate::last_look::{raise_all, settle};
use crate::neighbours::corners;
use crate::queue::LevelQueue;
use crate::samples::{at, greater, lesser, put};
use mw_geodesic::Neighbours;
use mw_model::NoMemory;
use mw_pixel::{Grey, Pixel, Plane};
use std::alloc::Global;

/// So many entries there is room for, however few pixels there are.
const LEAST: usize = 4096;

/// Cuts samples to those of the mask.
fn cut<P: Pixel>(samples: &mut [P], mask: &[P])
    requires { length samples.old ≡ length mask.now }
    ensures { (i : ℕ) → i < length mask.now → level_numbered P.level samples.new i ≡ min (level_numbered P.level samples.old i) (level_numbered P.level mask.now i) }
{
    for i in 0..mask.len() {
        let s = lesser(at(samples, i), at(mask, i));
        put(samples, i, s);
    }
}

/// The greatest level of the samples, or 0 of none.
fn greatest<P: Pixel>(samples: &[P]) -> u16 {
    if samples.is_empty() {
        return 0;
    }
    let mut most = samples[0];
    for i in 1..samples.len() {
        most = greater(most, samples[i]);
    }
    most.value()
}

/// For how many entries the queue of so many pixels has room: where samples have two bytes it has half of it, so that planes
/// and queue together take as much as with one byte.
fn room_of<P: Pixel>(pixels: usize) -> usize {
    if P::TOP.value() > u16::from(u8::MAX) {
        return pixels / 2 + LEAST;
    }
    pixels
}

/// Makes the reconstruction of the marker that the samples are, row by row.
fn rebuild_rows<P: Pixel>(
    alloc: Global,
    samples: &mut [P],
    mask: &[P],
    frame: Frame,
) -> Result<(), NoMemory>
    requires size { length samples.old ≡ frame.height * frame.width }
    requires mask { length mask.now ≡ frame.height * frame.width }
    ensures { OnOk result (IsRebuilt frame (level_numbered P.level mask.now) (level_numbered P.level samples.old) (level_numbered P.level samples.new)) }
{
    cut(samples, mask);
    let levels = usize::from(greatest(samples)) + 1;
    let mut queue = LevelQueue::new(alloc, levels, room_of::<P>(samples.len()))?;
    raise_all(samples, &mut queue, mask, frame);
    settle(samples, &mut queue, mask, frame);
    Ok(())
}

/// The frame, or one row in the place of one column: its places have the same numbers and neighbours, and those of a long row
/// are raised many at once.
fn turned(frame: Frame) -> Frame
    ensures size { result.height * result.width ≡ frame.height * frame.width }
    ensures same { (mask marker g : ℕ → ℕ) → IsRebuilt result mask marker g → IsRebuilt frame mask marker g }
{
    if frame.width == 1 {
        return Frame {
            width: frame.height,
            height: 1,
            corners: frame.corners,
        };
    }
    frame
}

/// Makes the reconstruction of the marker that the samples are.
fn rebuild<P: Pixel>(
    alloc: Global,
    samples: &mut [P],
    mask: &[P],
    frame: Frame,
) -> Result<(), NoMemory>
    requires size { length samples.old ≡ frame.height * frame.width }
    requires mask { length mask.now ≡ frame.height * frame.width }
    ensures { OnOk result (IsRebuilt frame (level_numbered P.level mask.now) (level_numbered P.level samples.old) (level_numbered P.level samples.new)) }
{
    rebuild_rows(alloc, samples, mask, turned(frame))?;
    Ok(())
}

/// The reconstruction of a mask from a marker of its size, by dilation, in the memory of the marker. It may want memory
/// (`NoMemory`), before it begins: four bytes for each level up to the greatest of the marker and of the mask, for each pixel
/// four where samples have one byte and two where they have two, and 64 KiB.
pub fn reconstruct<P: Grey>(
    alloc: Global,
    marker: Plane<P>,
    mask: &Plane<P>,
    neighbours: Neighbours,
) -> Result<Plane<P>, NoMemory>
    requires width { marker.width ≡ mask.now.width }
    requires height { marker.height ≡ mask.now.height }
    ensures { (maxval : ℕ) → IfOk result (λ r. picture_by P.level maxval r ≡ reconstruction (neighbours_of neighbours) (picture_by P.level maxval mask.now) (picture_by P.level maxval marker)) }
{
    let frame = Frame {
        width: mask.width(),
        height: mask.height(),
        corners: corners(neighbours),
    };
    let mut samples = marker.into_samples();
    rebuild(alloc, samples.as_mut_slice(), mask.samples(), frame)?;
    Ok(Plane::new(frame.width, frame.height, samples))
}

/// The same in memory of its own, for which it may want some more (`NoMemory`).
pub fn reconstruction<P: Grey>(
    alloc: Global,
    marker: &Plane<P>,
    mask: &Plane<P>,
    neighbours: Neighbours,
) -> Result<Plane<P>, NoMemory>
    requires width { marker.now.width ≡ mask.now.width }
    requires height { marker.now.height ≡ mask.now.height }
    ensures { (maxval : ℕ) → IfOk result (λ r. picture_by P.level maxval r ≡ reconstruction (neighbours_of neighbours) (picture_by P.level maxval mask.now) (picture_by P.level maxval marker.now)) }
{
    let (width, height) = (marker.width(), marker.height());
    let samples = Vec::from_slice(alloc, marker.samples())?;
    reconstruct(alloc, Plane::new(width, height, samples), mask, neighbours)
}
