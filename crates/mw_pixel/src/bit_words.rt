//! Sets, held as words.

ghost use Rattle.std.specs.Prelude.{◌≡◌};

use crate::{Bit, NoMemory, Samples};
use mw_pixel_words::Words;
use std::alloc::Global;

impl Samples<Bit> for Words {
    ghost shown = { λ a. a };

    fn width(&self) -> u32 {
        self.width()
    }

    fn height(&self) -> u32 {
        self.height()
    }

    fn at(&self, x: u32, y: u32) -> Bit {
        Bit::new(self.has(x, y))
    }

    fn filled(alloc: Global, width: u32, height: u32, sample: Bit) -> Result<Self, NoMemory> {
        Words::filled(alloc, width, height, sample.is_set())
    }

    fn same(&self, other: &Self) -> bool {
        self.same(other)
    }

    fn copy_run(&mut self, x: u32, y: u32, other: &Self, u: u32, v: u32, count: u32) {
        self.copy_run(x, y, other, u, v, count)
    }

    fn same_run(&self, x: u32, y: u32, other: &Self, u: u32, v: u32, count: u32) -> bool {
        self.same_run(x, y, other, u, v, count)
    }
}
