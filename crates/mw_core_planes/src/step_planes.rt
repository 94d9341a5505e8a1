//! The places of a plan's planes: what is kept of each step.

ghost use Rattle.std.specs.Prelude.{◌≡◌, ◌≢◌, ℕ, ◌<◌, ◌≤◌, true, false, Bool, None, length, map, slice_set, IfOk, OnOk};
ghost use Rattle.mw_model.specs.Pictures.{FitsKind};
ghost use Rattle.mw_grid.specs.Grids.{tile_count};
ghost use Rattle.mw_tile_planes.specs.Tiles.{tile_cells};
ghost use Rattle.mw_tile_planes.specs.Sums.{number_in};
ghost use Rattle.mw_core_planes.specs.Levels.{IsLevel, level_of_plane};
ghost use Rattle.mw_core_planes.specs.MadeTiles.{cells_of_made};
ghost use Rattle.mw_core_planes.specs.StepPlanes.{shown, form, IsFormOf, placed_in, Suits};

use crate::levels::PlaneLevel;
use mw_grid::Grid;
use mw_model::NoMemory;
use mw_plan::task::TileResult;
use mw_tile_planes::{Tile, TileSums, TiledPlane};
use std::alloc::Global;

/// What is kept of a step's plane. Until a task of the step is started there is nothing but its level.
#[derive(Drop)]
pub enum StepPlane {
    Closed(PlaneLevel),
    Plane(TiledPlane),
    Sums(TileSums),
}

impl StepPlane {
    /// Opens the plane of a step, or the numbers of one that sums up, unless that was done before. Where memory is
    /// refused all is as it was.
    pub fn open(&mut self, alloc: Global, grid: Grid, sums: bool) -> Result<(), NoMemory>
        requires level { IsLevel (level_of_plane (shown grid self.old)) }
        requires form { IsFormOf sums (form self.old) }
        ensures same { shown grid self.new ≡ shown grid self.old }
        ensures form { IsFormOf sums (form self.new) }
        ensures opened { OnOk result (1 ≤ form self.new) }
        ensures never { form self.old ≤ form self.new }
    {
        let level = match self {
            StepPlane::Closed(level) => *level,
            StepPlane::Plane(_) => return Ok(()),
            StepPlane::Sums(_) => return Ok(()),
        };
        if sums {
            *self = StepPlane::Sums(TileSums::new(alloc, level.kind(), level.maxval(), grid)?);
        } else {
            *self = StepPlane::Plane(TiledPlane::new(alloc, level.kind(), level.maxval(), grid)?);
        }
        Ok(())
    }

    /// Places what was made of a tile. This takes no memory.
    pub fn put(&mut self, grid: Grid, tile: u32, made: TileResult)
        requires within { tile < tile_count grid }
        requires tiling { (shown grid self.old).tiling ≡ grid }
        requires free { tile_cells (shown grid self.old).tiles tile ≡ None }
        requires suits { Suits grid self.old tile made }
        ensures value { shown grid self.new ≡ placed_in (shown grid self.old) tile (cells_of_made made) }
        ensures form { form self.new ≡ form self.old }
    {
        match self {
            StepPlane::Plane(plane) => match made {
                TileResult::Bits(samples) => plane.place(tile, Tile::Bits(samples)),
                TileResult::Grey8(samples, maxval) => {
                    plane.place(tile, Tile::Grey8(samples, maxval))
                }
                TileResult::Grey16(samples, maxval) => {
                    plane.place(tile, Tile::Grey16(samples, maxval))
                }
                TileResult::Number(_) => unreachable!(),
            },
            StepPlane::Sums(sums) => match made {
                TileResult::Number(number) => sums.place(tile, number),
                _ => unreachable!(),
            },
            StepPlane::Closed(_) => unreachable!(),
        }
    }

    /// The kind and maxval of the plane.
    pub fn level(&self, grid: Grid) -> PlaneLevel
        requires { form self.now ≢ 2 }
        ensures { result ≡ level_of_plane (shown grid self.now) }
    {
        match self {
            StepPlane::Closed(level) => *level,
            StepPlane::Plane(plane) => PlaneLevel::new(plane.kind(), plane.maxval()),
            StepPlane::Sums(_) => unreachable!(),
        }
    }

    /// The sum of the numbers of the tiles; of a place that was not opened, 0.
    pub fn total(&self, grid: Grid) -> u64
        requires { form self.now ≢ 1 }
        ensures { result ≡ number_in (shown grid self.now) }
    {
        match self {
            StepPlane::Closed(_) => 0,
            StepPlane::Plane(_) => unreachable!(),
            StepPlane::Sums(sums) => sums.total(),
        }
    }
}

/// Places without anything, one for each level.
pub fn closed(alloc: Global, levels: &[PlaneLevel]) -> Result<Vec<StepPlane>, NoMemory>
    ensures { IfOk result (λ v. v.items ≡ map StepPlane.Closed levels.now) }
{
    let mut places = Vec::with_capacity(alloc, levels.len())?;
    for level in levels {
        places.push(StepPlane::Closed(*level))?;
    }
    Ok(places)
}
