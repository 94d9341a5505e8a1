//! The numbers of tiles, each with its place before it is there, and their sum.

ghost use Rattle.std.specs.Prelude.{◌≡◌, ◌<◌, ◌≤◌, ◌^◌, All, IfOk, None, length, replicate, sum_by};
ghost use Rattle.mw_tile_planes.specs.Sums.{number_or_zero};

use mw_grid::Grid;
use mw_model::{Kind, NoMemory};
use std::alloc::Global;
use std::marker::Model;

/// The numbers that a Sum step makes of an image, one for each tile of its frame; the kind and maxval are the image's.
/// Each is under 2 to the power of 40: a tile has at most 2 to the power of 20 pixels.
#[derive(Drop)]
pub struct TileSums {
    grid: Grid,
    kind: Kind,
    maxval: u16,
    numbers: Vec<Option<u64>>,
}

impl Model for TileSums {
    ghost use Rattle.mw_tile_planes.specs.Tiles.{Tiled};

    ghost Value = { Tiled };

    ghost use Rattle.mw_tile_planes.specs.Sums.{summed, HasNumbers};

    ghost view = { λ s. summed s.kind s.maxval s.grid s.numbers.items };

    ghost invariant = { λ s. HasNumbers s.grid s.numbers.items };
}

impl TileSums {
    ghost use Rattle.std.specs.Prelude.{◌≡◌, ◌<◌, ◌^◌, [], ◌∷◌, IfOk, None, Some, slice_set};
    ghost use Rattle.mw_grid.specs.Grids.{tile_count};
    ghost use Rattle.mw_tile_planes.specs.Tiles.{nothing_placed, tile_cells};
    ghost use Rattle.mw_tile_planes.specs.Sums.{number_in};

    /// No number yet, with the places for all.
    pub fn new(alloc: Global, kind: Kind, maxval: u16, grid: Grid) -> Result<TileSums, NoMemory>
        ensures { IfOk result (λ s. s ≡ nothing_placed kind maxval grid) }
    {
        let numbers = no_numbers(alloc, grid.len() as usize)?;
        Ok(TileSums {
            grid,
            kind,
            maxval,
            numbers,
        })
    }

    /// Places the number of a tile. This takes no memory.
    pub fn place(&mut self, i: u32, number: u64)
        requires within { i < tile_count self.old.tiling }
        requires free { tile_cells self.old.tiles i ≡ None }
        requires small { number < 2 ^ 40 }
        ensures { self.new ≡ record self.old { tiles = slice_set self.old.tiles i (Some (number ∷ [])) } }
    {
        self.numbers[i as usize] = Some(number);
    }

    /// What the numbers that are placed add up to.
    pub fn total(&self) -> u64
        ensures { result ≡ number_in self.now }
    {
        // for the number of tiles
        let _count = self.grid.len();
        sum_of(&self.numbers)
    }
}

/// So many places without a number.
fn no_numbers(alloc: Global, count: usize) -> Result<Vec<Option<u64>>, NoMemory>
    ensures { IfOk result (λ v. v.items ≡ replicate count None) }
{
    let mut numbers = Vec::with_capacity(alloc, count)?;
    for _ in 0..count {
        numbers.push(None)?;
    }
    Ok(numbers)
}

/// The sum of the numbers that are there.
fn sum_of(numbers: &[Option<u64>]) -> u64
    requires count { length numbers.now ≤ 16384 }
    requires small { All (λ o. number_or_zero o < 2 ^ 40) numbers.now }
    ensures { result ≡ sum_by number_or_zero numbers.now }
{
    let mut total = 0;
    for number in numbers {
        total += number.unwrap_or(0);
    }
    total
}
