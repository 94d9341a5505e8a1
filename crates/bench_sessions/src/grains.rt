//! Rows of pictures of real shape: soft grains of many sizes on a slanted ground with noise, in levels up to 4095.

ghost use Rattle.std.specs.Prelude.{◌≡◌, ◌<◌};

use crate::chance::Chance;

/// What a picture shows.
#[derive(Clone, Copy)]
pub(crate) struct Scene {
    pub(crate) chance: Chance,
    /// How the ground rises, in 256ths of a level for a column and for a row; none in a mask.
    pub(crate) slope: (u32, u32),
    /// How many levels the noise has; none in a mask.
    pub(crate) noise: u32,
    /// Whether there are large grains among the small ones.
    pub(crate) is_mixed: bool,
}

/// Grains stand in squares of so many pixels, one in each.
const SMALL: u32 = 64;

const LARGE: u32 = 256;

/// A grain: the column and the row of its middle, the square of its radius, how much a pixel of it rises in 65536ths of a
/// level for each unit that the square of its distance is less.
#[derive(Clone, Copy)]
struct Grain {
    x: u32,
    y: u32,
    reach: u32,
    rise: u32,
}

/// The grain in a square of the picture.
fn grain_in(chance: Chance, side: u32, column: u32, row: u32) -> Grain {
    let number = column
        .wrapping_mul(4099)
        .wrapping_add(row.wrapping_mul(65537));
    let mut chance = chance.part(number.wrapping_add(side));
    let radius = chance.below((side / 2).saturating_sub(4)).wrapping_add(3);
    let room = side.saturating_sub(radius.wrapping_mul(2));
    let x = column
        .wrapping_mul(side)
        .wrapping_add(radius)
        .wrapping_add(chance.below(room));
    let y = row
        .wrapping_mul(side)
        .wrapping_add(radius)
        .wrapping_add(chance.below(room));
    let reach = radius.wrapping_mul(radius);
    let height = chance.below(1200).wrapping_add(300);
    Grain {
        x,
        y,
        reach,
        rise: height.wrapping_mul(65536) / reach.max(1),
    }
}

/// Adds to the levels from a column on what a grain has in a row.
fn add_grain(grain: Grain, x: u32, y: u32, levels: &mut [u32]) {
    let down = grain.y.abs_diff(y);
    let below = down.wrapping_mul(down);
    if below >= grain.reach {
        return;
    }
    let mut across = x.wrapping_sub(grain.x);
    for level in levels.iter_mut() {
        let far = across.wrapping_mul(across).wrapping_add(below);
        let near = u64::from(grain.reach.saturating_sub(far));
        let rise = near.wrapping_mul(u64::from(grain.rise)) >> 16;
        *level = level.wrapping_add((rise & 65535) as u32);
        across = across.wrapping_add(1);
    }
}

/// Adds the grains of one size that a row of the picture meets.
fn add_grains(chance: Chance, side: u32, y: u32, levels: &mut [u32])
    requires { 0 < side }
{
    let mut column = 0u32;
    for square in levels.chunks_mut(side as usize) {
        let grain = grain_in(chance, side, column, y / side);
        add_grain(grain, column.wrapping_mul(side), y, square);
        column = column.wrapping_add(1);
    }
}

/// Writes the levels of a row.
pub(crate) fn draw_row(scene: Scene, y: u32, levels: &mut [u32]) {
    let mut noise = scene.chance.part(y);
    let mut ground = scene.slope.1.wrapping_mul(y);
    for level in levels.iter_mut() {
        let speck = if scene.noise > 0 {
            noise.below(scene.noise)
        } else {
            0
        };
        *level = (ground >> 8).wrapping_add(speck);
        ground = ground.wrapping_add(scene.slope.0);
    }
    add_grains(scene.chance, SMALL, y, levels);
    if scene.is_mixed {
        add_grains(scene.chance, LARGE, y, levels);
    }
}
