//! Windows of whole planes.

ghost use Rattle.std.specs.Prelude.{◌≡◌, map, IfOk};
ghost use Rattle.std.specs.List.{AllByRecursion};
ghost use Rattle.mw_plan.specs.Seen.{source, sources};
ghost use Rattle.mw_step_task.specs.WindowTasks.{IsBounded};
ghost use Rattle.mw_c_direct.specs.Kept.{IsThere, plane_kept, whole_window};

use mw_grid::whole_frame;
use mw_model::NoMemory;
use mw_pixel::Image;
use mw_plan::{Source, Sources};
use mw_step_task::SharedWindow;
use std::alloc::Global;

/// The window that has the whole image.
fn whole(alloc: Global, image: &Image) -> Result<SharedWindow, NoMemory>
    ensures window { IfOk result (λ w. w ≡ whole_window image.now) }
    ensures bounded { IfOk result IsBounded }
{
    // for what holds of every image
    let _picture = image.view();
    SharedWindow::of_image(alloc, image, whole_frame(image.width(), image.height()))
}

/// The window that has the whole of a source.
fn window(
    alloc: Global,
    from: Source,
    image: &Image,
    planes: &[Option<Image>],
) -> Result<SharedWindow, NoMemory>
    requires { IsThere planes.now (source from) }
    ensures window { IfOk result (λ w. w ≡ whole_window (plane_kept image.now planes.now (source from))) }
    ensures bounded { IfOk result IsBounded }
{
    match from {
        Source::Input(_) => whole(alloc, image),
        Source::Step(k) => match &planes[k as usize] {
            Some(plane) => whole(alloc, plane),
            None => unreachable!(),
        },
    }
}

/// The windows that have the whole of each source, in order.
pub(crate) fn windows(
    alloc: Global,
    from: Sources,
    image: &Image,
    planes: &[Option<Image>],
) -> Result<Vec<SharedWindow>, NoMemory>
    requires { AllByRecursion (IsThere planes.now) (sources from) }
    ensures windows { IfOk result (λ v. v.items ≡ map (λ s. whole_window (plane_kept image.now planes.now s)) (sources from)) }
    ensures bounded { IfOk result (λ v. AllByRecursion IsBounded v.items) }
{
    let mut found = Vec::with_capacity(alloc, from.len())?;
    match from {
        Sources::Nothing => Ok(found),
        Sources::One(a) => {
            found.push(window(alloc, a, image, planes)?)?;
            Ok(found)
        }
        Sources::Two(a, b) => {
            found.push(window(alloc, a, image, planes)?)?;
            found.push(window(alloc, b, image, planes)?)?;
            Ok(found)
        }
        Sources::Three(a, b, c) => {
            found.push(window(alloc, a, image, planes)?)?;
            found.push(window(alloc, b, image, planes)?)?;
            found.push(window(alloc, c, image, planes)?)?;
            Ok(found)
        }
    }
}
