//! Levels of images, wherever they stand or whatever makes them.

ghost use Rattle.std.specs.Prelude.{◌≡◌, ◌<◌};
ghost use Rattle.mw_model.specs.Pictures.{sample};
ghost use Rattle.mw_c_arrays.specs.Sources.{IsArrayImage, picture_in};

use crate::by_pixel::made_at;
use mw_c_arrays::ArrayImage;
use mw_c_lent::Rule;
use mw_pixel::Image;

/// The levels of an image, one at a time and without memory, wherever they stand or whatever makes them.
pub trait Levels {
    ghost use Rattle.std.specs.Prelude.{◌≡◌, ◌<◌};
    ghost use Rattle.mw_model.specs.Pictures.{Picture, sample};

    ghost image: { Self → Picture };

    ghost sound: { Self → Type 0 };

    /// The columns.
    fn columns(&self) -> u32
        ensures { result ≡ (image self.now).width };

    /// The rows.
    fn rows(&self) -> u32
        ensures { result ≡ (image self.now).height };

    /// The greatest level that a sample may have.
    fn maxval(&self) -> u16
        requires { sound self.now }
        ensures { result ≡ (image self.now).maxval };

    /// The level in column x of row y.
    fn level_in(&self, x: u32, y: u32) -> u16
        requires sound { sound self.now }
        requires across { x < (image self.now).width }
        requires down { y < (image self.now).height }
        ensures { result ≡ sample (image self.now) x y };
}

/// The level in column x of row y.
fn level_in_array(f: ArrayImage<'_>, x: u32, y: u32) -> u16
    requires sound { IsArrayImage f }
    requires across { x < (picture_in f).width }
    requires down { y < (picture_in f).height }
    ensures { result ≡ sample (picture_in f.entry) x y }
{
    f.level(y as usize * f.width() as usize + x as usize)
}

impl Levels for ArrayImage<'_> {
    ghost use Rattle.mw_c_arrays.specs.Sources.{IsArrayImage, picture_in};

    ghost image = { picture_in };

    ghost sound = { IsArrayImage };

    fn columns(&self) -> u32 {
        self.width()
    }

    fn rows(&self) -> u32 {
        self.height()
    }

    fn maxval(&self) -> u16 {
        (*self).maxval()
    }

    fn level_in(&self, x: u32, y: u32) -> u16 {
        level_in_array(*self, x, y)
    }
}

impl Levels for Image {
    ghost use Rattle.mw_model.specs.Pictures.{IsImage};

    ghost image = { λ f. f };

    ghost sound = { IsImage };

    fn columns(&self) -> u32 {
        self.width()
    }

    fn rows(&self) -> u32 {
        self.height()
    }

    fn maxval(&self) -> u16 {
        self.maxval()
    }

    fn level_in(&self, x: u32, y: u32) -> u16 {
        self.sample(x, y)
    }
}

/// What a first step makes of an array for a second. It stands nowhere: each level is made where it is asked for.
#[derive(Clone, Copy)]
pub struct Between<'a> {
    pub rule: Rule<'a>,
    pub f: ArrayImage<'a>,
}

impl Levels for Between<'_> {
    ghost use Rattle.mw_c_arrays.specs.Sources.{IsArrayImage, picture_in};
    ghost use Rattle.mw_c_lent.specs.Rules.{rule_picture};

    ghost image = { λ b. rule_picture b.rule (picture_in b.f) };

    ghost sound = { λ b. IsArrayImage b.f };

    fn columns(&self) -> u32 {
        self.f.width()
    }

    fn rows(&self) -> u32 {
        self.f.height()
    }

    fn maxval(&self) -> u16 {
        match self.rule {
            Rule::Least(_) => self.f.maxval(),
            Rule::Greatest(_) => self.f.maxval(),
            Rule::LeastBox(_) => self.f.maxval(),
            Rule::GreatestBox(_) => self.f.maxval(),
            Rule::Nth(_, _) => self.f.maxval(),
            Rule::AtLeast(_) => 1,
        }
    }

    fn level_in(&self, x: u32, y: u32) -> u16 {
        made_at(self.rule, &self.f, x, y)
    }
}
