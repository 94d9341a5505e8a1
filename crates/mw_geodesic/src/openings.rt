//! Area openings of sets, by the labels of their components.

ghost use Rattle.std.specs.Prelude.{◌≡◌, ◌+◌, ◌-◌, ◌*◌, ◌≤◌, ◌&&◌, ◌==◌, IfOk, if◌then◌else◌, nat_le, slice_index};
ghost use Rattle.mw_model.specs.Pictures.{sample, IsSet};
ghost use Rattle.mw_geodesic.specs.Components.{area_opening};
ghost use Rattle.mw_geodesic.specs.Labels.{label_at};
ghost use Rattle.mw_geodesic.specs.Neighbours.{IsSymmetric};

use crate::drawings::{Drawing, redraw};
use crate::labels::{areas, labelled};
use mw_model::{NoMemory, Offset};
use mw_reference::ReferenceImage;
use std::alloc::Global;

/// The number at this place of the list; behind its end it is 0.
fn number_at(numbers: &[u32], i: usize) -> u32
    ensures { result ≡ slice_index numbers.now i }
{
    match numbers.get(i) {
        Some(n) => *n,
        None => 0,
    }
}

/// A mark for each place of a set whose label has a large enough area.
#[derive(Drop)]
struct LargeEnough<'a> {
    set: &'a ReferenceImage,
    labels: &'a [u32],
    areas: &'a [u32],
    least: u32,
}

impl Drawing for LargeEnough<'_> {
    ghost value = { λ a x y. if sample a.set.now x y == 1 && nat_le a.least (slice_index a.areas.now (label_at a.set.now a.labels.now x y - 1)) then 1 else 0 };

    fn at(&self, x: u32, y: u32) -> u16 {
        let i = y as usize * self.set.width() as usize + x as usize;
        let label = number_at(self.labels, i) as usize;
        let area = number_at(self.areas, label.saturating_sub(1));
        if self.set.sample(x, y) == 1 && self.least <= area {
            1
        } else {
            0
        }
    }
}

/// The components of a set with an area of `least` or more.
pub fn area_opening_of_set(
    alloc: Global,
    set: &ReferenceImage,
    least: u32,
    around: &[Offset],
) -> Result<ReferenceImage, NoMemory>
    requires symmetric { IsSymmetric around.now }
    requires set { IsSet set.now }
    ensures { IfOk result (λ r. r ≡ area_opening around.now least set.now) }
{
    set.is_small();
    let found = labelled(alloc, set, around)?;
    let sizes = areas(alloc, &found.labels, found.count)?;
    redraw(
        alloc,
        set,
        &LargeEnough {
            set,
            labels: &found.labels,
            areas: &sizes,
            least,
        },
    )
}
