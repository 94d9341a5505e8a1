//! Scripts: requests one after another, with the pictures and elements that they bring.

use crate::chance::Chance;
use crate::elements::{Form, bitmap};
use crate::fault::Fault;
use crate::grains::{Scene, draw_row};
use std::alloc::Global;

/// The sides of a picture.
#[derive(Clone, Copy)]
pub(crate) struct Sides {
    pub(crate) width: u32,
    pub(crate) height: u32,
}

/// How levels become samples: the number of bits of a sample.
#[derive(Clone, Copy)]
pub(crate) enum Depth {
    Eight,
    Twelve,
    Sixteen,
}

/// Which pixels of a mask are set.
#[derive(Clone, Copy)]
pub(crate) enum Cover {
    /// Those of the grains.
    Grains,
    /// Those between the grains.
    Between,
}

impl Depth {
    fn maxval(self) -> u32 {
        match self {
            Depth::Eight => 255,
            Depth::Twelve => 4095,
            Depth::Sixteen => 65535,
        }
    }

    fn bytes(self) -> u32 {
        match self {
            Depth::Eight => 1,
            _ => 2,
        }
    }
}

/// From which level on a pixel is one of a grain.
const EDGE: u32 = 24;

/// A script, as the bytes of a session.
#[derive(Drop)]
pub(crate) struct Script {
    pub(crate) alloc: Global,
    pub(crate) bytes: Vec<u8>,
    levels: Vec<u32>,
}

/// Adds a row of samples of one byte.
fn push_bytes(bytes: &mut Vec<u8>, levels: &[u32]) -> Result<(), Fault> {
    for level in levels {
        bytes.push((*level >> 4).min(255) as u8)?;
    }
    Ok(())
}

/// Adds a row of samples of two bytes, the high one first.
fn push_words(
    bytes: &mut Vec<u8>,
    levels: &[u32],
    depth: Depth,
    noise: Chance,
) -> Result<(), Fault> {
    let mut noise = noise;
    for level in levels {
        let level = (*level).min(4095);
        let sample = match depth {
            Depth::Sixteen => (level << 4) | noise.below(16),
            _ => level,
        };
        bytes.push(((sample >> 8) & 255) as u8)?;
        bytes.push((sample & 255) as u8)?;
    }
    Ok(())
}

/// The byte of eight pixels, the leftmost in the highest bit.
fn packed(levels: &[u32], cover: Cover) -> u8 {
    let mut byte = 0u8;
    let mut bit = 128u8;
    for level in levels {
        let is_set = match cover {
            Cover::Grains => *level >= EDGE,
            Cover::Between => *level < EDGE,
        };
        if is_set {
            byte |= bit;
        }
        bit >>= 1;
    }
    byte
}

/// Adds a row of pixels, eight a byte.
fn push_bits(bytes: &mut Vec<u8>, levels: &[u32], cover: Cover) -> Result<(), Fault> {
    for eight in levels.chunks(8) {
        bytes.push(packed(eight, cover))?;
    }
    Ok(())
}

impl Script {
    pub(crate) fn new(alloc: Global) -> Script {
        Script {
            alloc,
            bytes: Vec::new(alloc),
            levels: Vec::new(alloc),
        }
    }

    /// Adds a line.
    pub(crate) fn line(&mut self, text: &str) -> Result<(), Fault> {
        self.bytes.extend_from_slice(text.as_bytes())?;
        self.bytes.push(b'\n')?;
        Ok(())
    }

    /// Adds the line that loads a file of this head and so many bytes behind it, and the head.
    fn begin_load(&mut self, name: &str, head: &str, raster: u64) -> Result<(), Fault> {
        let length = raster.wrapping_add(head.len() as u64);
        let line = format!(in self.alloc; "LOAD {name} {length}")?;
        self.line(line.as_str())?;
        self.bytes.extend_from_slice(head.as_bytes())?;
        Ok(())
    }

    /// Room for the levels of a row.
    fn widen(&mut self, width: u32) -> Result<(), Fault> {
        self.levels.clear();
        self.levels.resize(width as usize, 0)?;
        Ok(())
    }

    /// Loads a picture in levels of grey.
    pub(crate) fn load_grey(
        &mut self,
        name: &str,
        sides: Sides,
        depth: Depth,
        scene: Scene,
    ) -> Result<(), Fault> {
        let (width, height, maxval) = (sides.width, sides.height, depth.maxval());
        let head = format!(in self.alloc; "P5\n{width} {height}\n{maxval}\n")?;
        let samples = u64::from(width).wrapping_mul(u64::from(height));
        let raster = samples.wrapping_mul(u64::from(depth.bytes()));
        self.begin_load(name, head.as_str(), raster)?;
        self.widen(width)?;
        for y in 0..height {
            draw_row(scene, y, self.levels.as_mut_slice());
            match depth {
                Depth::Eight => push_bytes(&mut self.bytes, self.levels.as_slice())?,
                _ => push_words(
                    &mut self.bytes,
                    self.levels.as_slice(),
                    depth,
                    scene.chance.part(y),
                )?,
            }
        }
        Ok(())
    }

    /// Loads a mask.
    pub(crate) fn load_mask(
        &mut self,
        name: &str,
        sides: Sides,
        cover: Cover,
        scene: Scene,
    ) -> Result<(), Fault> {
        let (width, height) = (sides.width, sides.height);
        let head = format!(in self.alloc; "P4\n{width} {height}\n")?;
        let row = u64::from(width).wrapping_add(7) / 8;
        self.begin_load(name, head.as_str(), row.wrapping_mul(u64::from(height)))?;
        self.widen(width)?;
        for y in 0..height {
            draw_row(scene, y, self.levels.as_mut_slice());
            push_bits(&mut self.bytes, self.levels.as_slice(), cover)?;
        }
        Ok(())
    }

    /// Keeps an element of so many columns and rows, with its origin in its middle.
    pub(crate) fn element(&mut self, name: &str, form: Form, across: u32) -> Result<(), Fault> {
        self.element_at(name, form, across, across / 2)
    }

    /// Keeps an element with its origin in this column and row.
    pub(crate) fn element_at(
        &mut self,
        name: &str,
        form: Form,
        across: u32,
        origin: u32,
    ) -> Result<(), Fault> {
        let file = bitmap(self.alloc, form, across)?;
        let length = file.len();
        let line = format!(in self.alloc; "ELEMENT {name} {origin} {origin} {length}")?;
        self.line(line.as_str())?;
        self.bytes.extend_from_slice(file.as_slice())?;
        Ok(())
    }

    /// Loads a square of a picture, of which the samples stand in rows of `wide` bytes.
    pub(crate) fn load_square(
        &mut self,
        number: u32,
        side: u32,
        picture: &[u8],
        wide: usize,
        from: usize,
    ) -> Result<(), Fault> {
        let name = format!(in self.alloc; "f{number}")?;
        let head = format!(in self.alloc; "P5\n{side} {side}\n255\n")?;
        let raster = u64::from(side).wrapping_mul(u64::from(side));
        self.begin_load(name.as_str(), head.as_str(), raster)?;
        let mut rest = picture.get(from..).unwrap_or_default();
        for _ in 0..side {
            self.bytes
                .extend_from_slice(rest.get(..side as usize).ok_or(Fault::Words)?)?;
            rest = rest.get(wide..).unwrap_or_default();
        }
        Ok(())
    }
}
