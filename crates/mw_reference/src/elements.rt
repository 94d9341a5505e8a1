//! Elements of the reference.

use crate::ReferenceImage;
use mw_model::Offset;
use std::marker::Model;

/// An element as it is handed in, or turned round. Contracts see it as the list of its offsets.
#[derive(Drop)]
pub struct Element<'a> {
    offsets: &'a [Offset],
    turned: bool,
}

impl<'a> Model for Element<'a> {
    ghost use Rattle.std.specs.Prelude.{List, if◌then◌else◌};
    ghost use Rattle.mw_model.specs.declared.offsets.Offset.{Offset};
    ghost use Rattle.mw_model.specs.Flat.{reflected};

    ghost Value = { List Offset };

    ghost view = { λ a. if a.turned then reflected a.offsets.now else a.offsets.now };
}

impl<'a> Element<'a> {
    ghost use Rattle.std.specs.Prelude.{◌≡◌, ◌<◌, ◌+ℤ◌, pos, length, slice_index_or};
    ghost use Rattle.mw_model.specs.Pictures.{sample_at};
    ghost use Rattle.mw_model.specs.Flat.{reflected};

    pub fn upright(offsets: &'a [Offset]) -> Element<'a>
        ensures { result ≡ offsets.now }
    {
        Element {
            offsets,
            turned: false,
        }
    }

    /// The element with each offset turned round.
    pub fn turned(offsets: &'a [Offset]) -> Element<'a>
        ensures { result ≡ reflected offsets.now }
    {
        Element {
            offsets,
            turned: true,
        }
    }

    /// The number of offsets.
    pub fn size(&self) -> usize
        ensures { result ≡ length self.now }
    {
        self.offsets.len()
    }

    /// The sample under pixel i of the element placed at column x of row y, where the frame has that place.
    pub fn sample_under(&self, i: usize, image: &ReferenceImage, x: u32, y: u32) -> Option<u16>
        requires { i < length self.now }
        ensures { let b = slice_index_or self.now i (record { dx = pos 0; dy = pos 0 }) in result ≡ sample_at image.now (pos x +ℤ b.dx) (pos y +ℤ b.dy) }
    {
        let offsets = self.offsets;
        let b = offsets[i];
        if self.turned {
            image.sample_back(x, y, b)
        } else {
            image.sample_from(x, y, b)
        }
    }
}
