//! Area openings, and closings by the complement.

ghost use Rattle.std.specs.Prelude.{◌≡◌, ℕ, ◌+◌, ◌-◌, ◌*◌, ◌<◌, ◌≤◌, ◌^◌, length, map, replicate, vec_len, IfOk, OnErr, OnOk};
ghost use Rattle.mw_model.specs.Pictures.{IsPicture, picture};
ghost use Rattle.mw_model.specs.declared.shapes.Kind.TheVariants as kind;
ghost use Rattle.mw_geodesic.specs.Components.{area_opening, area_closing};
ghost use Rattle.mw_geodesic.specs.Neighbours.{neighbours_of};
ghost use Rattle.mw_geodesic_levels.specs.Levels.{level_numbered};
ghost use Rattle.mw_geodesic_levels.specs.Pictures.{picture_by};
ghost use Rattle.mw_geodesic_areas.specs.Problems.{problem, IsOpened};
ghost use Rattle.mw_geodesic_areas.specs.Seen.{level_seen};
ghost use Rattle.mw_geodesic_areas.specs.Forests.{EachByItself};

use crate::chains::chain;
use crate::classes::Task;
use crate::forest::alone;
use crate::taking::{resolve, take_all};
use mw_geodesic::Neighbours;
use mw_geodesic_levels::found::{Frame, at, corners, put};
use mw_model::NoMemory;
use mw_pixel::{Grey, Pixel, Plane, copies};
use std::alloc::Global;

/// The sample of level 0.
fn lowest<P: Pixel>() -> P
    ensures { P.level result ≡ 0 }
{
    P::of(0).unwrap()
}

/// Writes the level at which each place was large last, over levels of 0.
fn open<P: Pixel>(
    parent: &mut [u32],
    links: &mut [u32],
    heads: &mut [u32],
    out: &mut [P],
    task: &Task<'_, P>,
)
    requires alone { EachByItself parent.old }
    requires size { length parent.old ≡ task.now.frame.height * task.now.frame.width }
    requires links { length links.old ≡ task.now.frame.height * task.now.frame.width }
    requires out { length out.old ≡ task.now.frame.height * task.now.frame.width }
    requires samples { length task.now.samples.now ≡ task.now.frame.height * task.now.frame.width }
    requires fits { task.now.maxval ≤ P.top_level }
    requires few { task.now.frame.height * task.now.frame.width < 2 ^ 32 }
    requires blank { (i : ℕ) → i < length out.old → level_numbered P.level out.old i ≡ 0 }
    requires heads { heads.old ≡ replicate (length heads.old) 0 }
    requires top { length heads.old ≡ P.top_level + 1 }
    ensures { (i : ℕ) → i < length out.old → IsOpened (problem task.now.frame (level_seen P.level task.now.turned task.now.maxval task.now.samples.now) task.now.least) (level_numbered P.level out.new i) i }
{
    chain(heads, links, task);
    take_all(parent, links, out, task, heads);
    resolve(parent, out);
}

/// Each sample becomes the lowest.
fn blank<P: Pixel>(samples: &mut [P])
    ensures { (i : ℕ) → i < length samples.old → level_numbered P.level samples.new i ≡ 0 }
{
    let none = lowest();
    for i in 0..samples.len() {
        put(samples, i, none);
    }
}

/// Writes the samples of the area opening of what is looked at to an array, unless it wants memory.
fn open_into<P: Pixel>(alloc: Global, task: &Task<'_, P>, out: &mut [P]) -> Result<(), NoMemory>
    requires samples { length task.now.samples.now ≡ task.now.frame.height * task.now.frame.width }
    requires fits { task.now.maxval ≤ P.top_level }
    requires few { task.now.frame.height * task.now.frame.width < 2 ^ 32 }
    requires out { length out.old ≡ task.now.frame.height * task.now.frame.width }
    ensures size { length out.new ≡ length out.old }
    ensures each { OnOk result ((i : ℕ) → i < task.now.frame.height * task.now.frame.width → IsOpened (problem task.now.frame (level_seen P.level task.now.turned task.now.maxval task.now.samples.now) task.now.least) (level_numbered P.level out.new i) i) }
    ensures kept { OnErr result (out.new ≡ out.old) }
{
    let count = task.samples.len();
    let mut parent = alone(alloc, count as u32)?;
    let mut links = vec![in alloc; 0u32; count]?;
    let mut heads = vec![in alloc; 0u32; usize::from(P::TOP.value()) + 1]?;
    blank(out);
    open(
        parent.as_mut_slice(),
        links.as_mut_slice(),
        heads.as_mut_slice(),
        out,
        task,
    );
    Ok(())
}

/// The samples of the area opening of what is looked at.
fn opening_samples<P: Pixel>(alloc: Global, task: &Task<'_, P>) -> Result<Vec<P>, NoMemory>
    requires samples { length task.now.samples.now ≡ task.now.frame.height * task.now.frame.width }
    requires fits { task.now.maxval ≤ P.top_level }
    requires few { task.now.frame.height * task.now.frame.width < 2 ^ 32 }
    ensures size { IfOk result (λ r. vec_len r ≡ task.now.frame.height * task.now.frame.width) }
    ensures each { IfOk result (λ r. (i : ℕ) → i < task.now.frame.height * task.now.frame.width → IsOpened (problem task.now.frame (level_seen P.level task.now.turned task.now.maxval task.now.samples.now) task.now.least) (level_numbered P.level r.items i) i) }
{
    let mut out = copies(alloc, task.samples.len(), lowest::<P>())?;
    open_into(alloc, task, out.as_mut_slice())?;
    Ok(out)
}

/// The area opening of an image: at each place the greatest level at which it belongs to a component of `least` places or
/// more. It may want memory (`NoMemory`).
pub fn area_opening<P: Grey>(
    alloc: Global,
    image: &Plane<P>,
    neighbours: Neighbours,
    least: u32,
) -> Result<Plane<P>, NoMemory>
    requires few { image.now.height * image.now.width < 2 ^ 32 }
    ensures { (maxval : ℕ) → IsPicture (picture_by P.level maxval image.now) → IfOk result (λ r. picture_by P.level maxval r ≡ area_opening (neighbours_of neighbours) least (picture_by P.level maxval image.now)) }
{
    let task = Task {
        samples: image.samples(),
        frame: Frame {
            width: image.width(),
            height: image.height(),
            corners: corners(neighbours),
        },
        least,
        turned: false,
        maxval: 0,
    };
    let out = opening_samples(alloc, &task)?;
    Ok(Plane::new(task.frame.width, task.frame.height, out))
}

/// Writes over each sample what is left of it to the maxval.
fn complement<P: Pixel>(samples: &mut [P], maxval: u16)
    requires { maxval ≤ P.top_level }
    ensures { (i : ℕ) → i < length samples.old → level_numbered P.level samples.new i ≡ maxval - level_numbered P.level samples.old i }
{
    for i in 0..samples.len() {
        let level = maxval.saturating_sub(at(samples, i).value());
        put(samples, i, P::of(level).unwrap());
    }
}

/// The area closing of an image: the complement of the area opening of the complement. It may want memory (`NoMemory`).
pub fn area_closing<P: Grey>(
    alloc: Global,
    image: &Plane<P>,
    maxval: u16,
    neighbours: Neighbours,
    least: u32,
) -> Result<Plane<P>, NoMemory>
    requires few { image.now.height * image.now.width < 2 ^ 32 }
    requires fits { maxval ≤ P.top_level }
    requires within { IsPicture (picture_by P.level maxval image.now) }
    ensures { IfOk result (λ r. picture_by P.level maxval r ≡ area_closing (neighbours_of neighbours) least (picture_by P.level maxval image.now)) }
{
    let width = image.width();
    let height = image.height();
    let mut turned = Vec::from_slice(alloc, image.samples())?;
    complement(turned.as_mut_slice(), maxval);
    let image = Plane::new(width, height, turned);
    let mut closed = area_opening(alloc, &image, neighbours, least)?.into_samples();
    complement(closed.as_mut_slice(), maxval);
    Ok(Plane::new(width, height, closed))
}

/// Writes the area opening of an image to an array, by its samples. It may want memory (`NoMemory`): 8 bytes a pixel, and 4 for
/// each level of the type; then the array is as it was.
pub fn open_areas<P: Pixel>(
    alloc: Global,
    samples: &[P],
    width: u32,
    height: u32,
    neighbours: Neighbours,
    least: u32,
    out: &mut [P],
) -> Result<(), NoMemory>
    requires samples { length samples.now ≡ height * width }
    requires out { length out.old ≡ height * width }
    requires few { height * width < 2 ^ 32 }
    ensures made { (maxval : ℕ) → IsPicture (picture kind.Grey width height maxval (map P.level samples.now)) → OnOk result (picture kind.Grey width height maxval (map P.level out.new) ≡ area_opening (neighbours_of neighbours) least (picture kind.Grey width height maxval (map P.level samples.now))) }
    ensures kept { OnErr result (out.new ≡ out.old) }
{
    let frame = Frame {
        width,
        height,
        corners: corners(neighbours),
    };
    let task = Task {
        samples,
        frame,
        least,
        turned: false,
        maxval: 0,
    };
    open_into(alloc, &task, out)
}

/// The same of the area closing.
pub fn close_areas<P: Pixel>(
    alloc: Global,
    samples: &[P],
    width: u32,
    height: u32,
    maxval: u16,
    neighbours: Neighbours,
    least: u32,
    out: &mut [P],
) -> Result<(), NoMemory>
    requires samples { length samples.now ≡ height * width }
    requires out { length out.old ≡ height * width }
    requires few { height * width < 2 ^ 32 }
    requires fits { maxval ≤ P.top_level }
    requires within { IsPicture (picture kind.Grey width height maxval (map P.level samples.now)) }
    ensures made { OnOk result (picture kind.Grey width height maxval (map P.level out.new) ≡ area_closing (neighbours_of neighbours) least (picture kind.Grey width height maxval (map P.level samples.now))) }
    ensures kept { OnErr result (out.new ≡ out.old) }
{
    let frame = Frame {
        width,
        height,
        corners: corners(neighbours),
    };
    let task = Task {
        samples,
        frame,
        least,
        turned: true,
        maxval,
    };
    open_into(alloc, &task, out)?;
    complement(out, maxval);
    Ok(())
}
