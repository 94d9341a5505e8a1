//! Kinds of images, and the shapes of results.

ghost use Rattle.std.specs.Prelude.{◌≡◌};
ghost use Rattle.mw_model.specs.Machine as machine;
ghost use Rattle.mw_model.specs.Refusals as words;

/// What the samples of an image are.
#[derive(Clone, Copy, PartialEq, Eq, Debug)]
pub enum Kind {
    /// A set: the samples are 0 and 1, and the maxval is 1.
    Bit,
    /// Levels of grey from 0 to the maxval.
    Grey,
}

/// What a reply tells of an entry without its samples.
#[derive(Clone, Copy, PartialEq, Eq, Debug)]
pub enum Shape {
    /// Kind, width and height in pixels, maxval.
    Image(Kind, u32, u32, u16),
    /// Width and height of the bitmap in pixels.
    Element(u32, u32),
    /// The number of volumes.
    Curve(u32),
}

impl Shape {
    pub fn is_image(&self) -> bool
        ensures { result ≡ words.is_image self.now }
    {
        matches!(self, Shape::Image(_, _, _, _))
    }

    pub fn is_element(&self) -> bool
        ensures { result ≡ words.is_element self.now }
    {
        matches!(self, Shape::Element(_, _))
    }

    /// The shape of a set.
    pub fn is_binary(&self) -> bool
        ensures { result ≡ words.is_binary self.now }
    {
        matches!(self, Shape::Image(Kind::Bit, _, _, _))
    }

    /// A set with the sides of the image.
    pub fn as_bits(&self) -> Shape
        ensures { result ≡ machine.as_bits self.now }
    {
        match self {
            Shape::Image(_, width, height, _) => Shape::Image(Kind::Bit, *width, *height, 1),
            other => *other,
        }
    }

    /// A grey image of this maxval with the sides of the image.
    pub fn as_grey(&self, maxval: u16) -> Shape
        ensures { result ≡ machine.as_grey maxval self.now }
    {
        match self {
            Shape::Image(_, width, height, _) => Shape::Image(Kind::Grey, *width, *height, maxval),
            other => *other,
        }
    }
}
