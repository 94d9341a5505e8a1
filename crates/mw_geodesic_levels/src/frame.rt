//! Places of a frame and their numbers.

ghost use Rattle.std.specs.Prelude.{◌≡◌, ◌+◌, ◌*◌, ◌<◌};

/// The sides of an image, and whether places that touch at a corner are neighbours.
#[derive(Clone, Copy, Debug)]
pub struct Frame {
    pub width: u32,
    pub height: u32,
    pub corners: bool,
}

/// A place, by its column and its row.
#[derive(Clone, Copy, Debug)]
pub struct Place {
    pub x: u32,
    pub y: u32,
}

impl Frame {
    /// The number of the place in column x of row y.
    #[inline(always)]
    pub fn number(self, x: u32, y: u32) -> usize
        requires column { x < self.width }
        requires row { y < self.height }
        ensures value { result ≡ y * self.width + x }
        ensures within { result < self.height * self.width }
    {
        y as usize * self.width as usize + x as usize
    }

    /// The place with a number.
    #[inline(always)]
    pub fn place(self, number: u32) -> Place
        requires { number < self.height * self.width }
        ensures column { result.x < self.width }
        ensures row { result.y < self.height }
        ensures value { number ≡ result.y * self.width + result.x }
    {
        Place {
            x: number % self.width,
            y: number / self.width,
        }
    }
}
