//! The least that is told of the places with each label.

ghost use Rattle.std.specs.Prelude.{◌≡◌, ℕ, ◌+◌, ◌*◌, ◌-◌, ◌<◌, ◌≤◌, ◌^◌, ◌==◌, if◌then◌else◌, length, min, slice_index, vec_len, IfOk};
ghost use Rattle.mw_c_geodesic.specs.Sides.{IsLeastTold, how_far};

use mw_model::NoMemory;
use std::alloc::Global;

/// From where places of a frame are looked at: from the first one, by rows, or from one of the four sides.
#[derive(Clone, Copy)]
pub enum Side {
    First,
    Left,
    Top,
    Right,
    Bottom,
}

/// How far a place is.
fn how_far(side: Side, width: u32, height: u32, i: u32) -> u32
    requires some { 1 ≤ width }
    requires inside { i < height * width }
    ensures { result ≡ how_far side width height i }
{
    match side {
        Side::First => i,
        Side::Left => i % width,
        Side::Top => i / width,
        Side::Right => (width - 1).saturating_sub(i % width),
        Side::Bottom => (height - 1).saturating_sub(i / width),
    }
}

/// Takes what is told of one place more of a label.
fn take_note(least: &mut [u32], label: u32, told: u32)
    ensures size { length least.new ≡ length least.old }
    ensures each { (k : ℕ) → k < length least.old → slice_index least.new k ≡ (if label == k + 1 then min (slice_index least.old k) told else slice_index least.old k) }
{
    if label == 0 || label as usize > least.len() {
        return;
    }
    let k = label as usize - 1;
    least[k] = least[k].min(told);
}

/// Of the places with each label from 1 on, how far the nearest is. It may want memory (`NoMemory`).
pub(crate) fn nearest(
    alloc: Global,
    side: Side,
    labels: &[u32],
    count: u32,
    width: u32,
    height: u32,
) -> Result<Vec<u32>, NoMemory>
    requires some { 1 ≤ width }
    requires size { length labels.now ≡ height * width }
    requires few { height * width < 2 ^ 32 - 1 }
    ensures size { IfOk result (λ r. vec_len r ≡ count) }
    ensures each { IfOk result (λ r. (k : ℕ) → k < count → IsLeastTold (how_far side width height) labels.now (length labels.now) (k + 1) (slice_index r.items k)) }
{
    let mut least = vec![in alloc; u32::MAX; count as usize]?;
    for i in 0..labels.len() {
        take_note(
            &mut least,
            labels[i],
            how_far(side, width, height, i as u32),
        );
    }
    Ok(least)
}
