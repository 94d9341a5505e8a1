//! The jobs that users wait for, as scripts: each a few commands on pictures of real shape.

use crate::chance::Chance;
use crate::elements::Form;
use crate::fault::Fault;
use crate::grains::{Scene, draw_row};
use crate::script::{Cover, Depth, Script, Sides};
use std::alloc::Global;

/// What is done.
#[derive(Clone, Copy)]
pub(crate) enum Job {
    /// The ground under grains: top-hats and closings by large discs, and an opening by an element with gaps.
    Ground,
    /// Grain sizes: spectra of a picture and of a mask.
    Sizes,
    /// Noise taken away: medians of samples of 8, 12 and 16 bits.
    Medians,
    /// Masks: a skeleton, what is restored of it, and corners by hit-or-miss.
    Masks,
    /// Defects and scratches: a median, both top-hats, thresholds, openings of the masks, an opening by a line, edges.
    Defects,
    /// A night's work: many small pictures, and a few of awkward sides.
    Night,
}

pub(crate) const JOBS: [Job; 6] = [
    Job::Ground,
    Job::Sizes,
    Job::Medians,
    Job::Masks,
    Job::Defects,
    Job::Night,
];

/// How much is done: the pictures of a sample have a few thousand pixels.
#[derive(Clone, Copy)]
pub(crate) enum Extent {
    Whole,
    Sample,
}

impl Extent {
    fn sides(self, width: u32, height: u32) -> Sides {
        match self {
            Extent::Whole => Sides { width, height },
            Extent::Sample => Sides {
                width: width / 32 + 1,
                height: height / 32 + 1,
            },
        }
    }

    fn across(self, across: u32) -> u32 {
        match self {
            Extent::Whole => across,
            Extent::Sample => across / 4 | 1,
        }
    }

    fn count(self, count: u32) -> u32 {
        match self {
            Extent::Whole => count,
            Extent::Sample => count / 64,
        }
    }
}

/// Soft grains of many sizes on a slanted ground.
fn picture(chance: Chance) -> Scene {
    Scene {
        chance,
        slope: (19, 31),
        noise: 120,
        is_mixed: true,
    }
}

/// Compact grains.
fn mask(chance: Chance, is_mixed: bool) -> Scene {
    Scene {
        chance,
        slope: (0, 0),
        noise: 0,
        is_mixed,
    }
}

fn ground(script: &mut Script, chance: Chance, extent: Extent) -> Result<(), Fault> {
    let sides = extent.sides(2048, 2048);
    script.load_grey("f", sides, Depth::Eight, picture(chance.part(1)))?;
    script.load_grey("g", sides, Depth::Sixteen, picture(chance.part(2)))?;
    script.load_grey(
        "h",
        extent.sides(1531, 2049),
        Depth::Eight,
        picture(chance.part(3)),
    )?;
    script.element("a", Form::Disc, extent.across(127))?;
    script.element("b", Form::Disc, extent.across(31))?;
    script.element("c", Form::Disc, extent.across(15))?;
    script.element_at("d", Form::Scattered(chance.part(4)), extent.across(13), 0)?;
    script.line("RUN fa WTOPHAT f a")?;
    script.line("RUN gb CLOSE g b")?;
    script.line("RUN fc OPEN f c")?;
    script.line("RUN hd OPEN h d")?;
    for name in ["fa", "gb", "fc", "hd"] {
        let line = format!(in script.alloc; "FETCH {name}")?;
        script.line(line.as_str())?;
    }
    Ok(())
}

fn sizes(script: &mut Script, chance: Chance, extent: Extent) -> Result<(), Fault> {
    let sides = extent.sides(2048, 1536);
    script.load_grey("f", sides, Depth::Eight, picture(chance.part(1)))?;
    script.load_mask(
        "x",
        extent.sides(2048, 2048),
        Cover::Grains,
        mask(chance.part(2), false),
    )?;
    script.element("a", Form::Disc, 7)?;
    script.element("b", Form::Disc, 5)?;
    script.line("RUN s SPECTRUM f a 16")?;
    script.line("RUN t SPECTRUM x b 16")?;
    script.line("FETCH s")?;
    script.line("FETCH t")?;
    Ok(())
}

fn medians(script: &mut Script, chance: Chance, extent: Extent) -> Result<(), Fault> {
    let sides = extent.sides(2048, 2048);
    script.load_grey("f", sides, Depth::Eight, picture(chance.part(1)))?;
    script.load_grey(
        "g",
        extent.sides(1536, 2048),
        Depth::Twelve,
        picture(chance.part(2)),
    )?;
    script.load_grey(
        "h",
        extent.sides(2048, 1536),
        Depth::Sixteen,
        picture(chance.part(3)),
    )?;
    script.element("a", Form::Square, 5)?;
    script.element("b", Form::Square, 15)?;
    script.element("c", Form::Disc, 31)?;
    script.element("d", Form::Square, 7)?;
    script.line("RUN fa RANK f a 13")?;
    script.line("RUN fb RANK f b 113")?;
    script.line("RUN fc RANK f c 355")?;
    script.line("RUN gb RANK g b 113")?;
    script.line("RUN hd RANK h d 25")?;
    for name in ["fa", "fb", "fc", "gb", "hd"] {
        let line = format!(in script.alloc; "FETCH {name}")?;
        script.line(line.as_str())?;
    }
    Ok(())
}

/// The elements of a corner in each of its four turns, and the commands that look for them.
fn corners(script: &mut Script) -> Result<(), Fault> {
    for turn in 0..4u32 {
        let (set, clear) = (
            format!(in script.alloc; "k{turn}")?,
            format!(in script.alloc; "l{turn}")?,
        );
        script.element(set.as_str(), Form::Corner(turn), 3)?;
        script.element(clear.as_str(), Form::Opposite(turn), 3)?;
        let line = format!(in script.alloc; "RUN h{turn} HITMISS y k{turn} l{turn}")?;
        script.line(line.as_str())?;
    }
    Ok(())
}

fn masks(script: &mut Script, chance: Chance, extent: Extent) -> Result<(), Fault> {
    script.load_mask(
        "x",
        extent.sides(4095, 2049),
        Cover::Grains,
        mask(chance.part(1), true),
    )?;
    script.load_mask(
        "y",
        extent.sides(4096, 4096),
        Cover::Between,
        mask(chance.part(2), false),
    )?;
    script.element("c", Form::Cross, 3)?;
    script.line("RUN s SKELETON x c 50")?;
    script.line("RUN r RESTORE s c 50")?;
    corners(script)?;
    for name in ["s", "r", "h0", "h1", "h2", "h3"] {
        let line = format!(in script.alloc; "FETCH {name}")?;
        script.line(line.as_str())?;
    }
    Ok(())
}

fn defects(script: &mut Script, chance: Chance, extent: Extent) -> Result<(), Fault> {
    script.load_grey(
        "f",
        extent.sides(4095, 4096),
        Depth::Eight,
        picture(chance.part(1)),
    )?;
    script.element("a", Form::Square, 5)?;
    script.element("b", Form::Disc, 31)?;
    script.element("c", Form::Disc, 5)?;
    script.element("d", Form::Diagonal, 41)?;
    for line in [
        "RUN m RANK f a 13",
        "RUN w WTOPHAT m b",
        "RUN v BTOPHAT m b",
        "RUN wt THRESHOLD w 24",
        "RUN vt THRESHOLD v 24",
        "RUN wo OPEN wt c",
        "RUN vo OPEN vt c",
        "RUN l OPEN m d",
        "RUN e GRADIENT m a",
        "FETCH wo",
        "FETCH vo",
        "STATUS l",
        "FETCH e",
    ] {
        script.line(line)?;
    }
    Ok(())
}

/// The samples of a picture of so many columns and rows.
fn samples(alloc: Global, scene: Scene, side: u32) -> Result<Vec<u8>, Fault> {
    let mut levels = vec![in alloc; 0u32; side as usize]?;
    let mut bytes = Vec::new(alloc);
    for y in 0..side {
        draw_row(scene, y, levels.as_mut_slice());
        for level in levels.as_slice() {
            bytes.push((*level >> 4).min(255) as u8)?;
        }
    }
    Ok(bytes)
}

/// Loads a small picture, opens it, fetches the set of its brighter places, and lets go of all three.
fn small(script: &mut Script, number: u32) -> Result<(), Fault> {
    for (line, rest) in [
        ("RUN o", " OPEN f"),
        ("RUN t", " THRESHOLD o"),
        ("FETCH t", ""),
        ("RELEASE f", ""),
        ("RELEASE o", ""),
        ("RELEASE t", ""),
    ] {
        let (of, by) = match rest {
            " OPEN f" => (format!(in script.alloc; "{number}")?, " b"),
            " THRESHOLD o" => (format!(in script.alloc; "{number}")?, " 60"),
            _ => (format!(in script.alloc; "")?, ""),
        };
        let line = format!(in script.alloc; "{line}{number}{rest}{of}{by}")?;
        script.line(line.as_str())?;
    }
    Ok(())
}

fn night(script: &mut Script, chance: Chance, extent: Extent) -> Result<(), Fault> {
    const SIDE: u32 = 1024;
    let field = samples(script.alloc, picture(chance.part(1)), SIDE)?;
    script.element("b", Form::Disc, 7)?;
    let mut chance = chance.part(2);
    for number in 0..extent.count(8000) {
        let (x, y) = (chance.below(SIDE - 96), chance.below(SIDE - 96));
        let from = y.wrapping_mul(SIDE).wrapping_add(x);
        script.load_square(number, 96, field.as_slice(), SIDE as usize, from as usize)?;
        small(script, number)?;
    }
    script.load_grey(
        "wide",
        extent.sides(8192, 17),
        Depth::Eight,
        picture(chance.part(3)),
    )?;
    script.line("RUN edge GRADIENT wide b")?;
    script.line("FETCH edge")
}

impl Job {
    pub(crate) fn name(self) -> &'static str {
        match self {
            Job::Ground => "ground",
            Job::Sizes => "sizes",
            Job::Medians => "medians",
            Job::Masks => "masks",
            Job::Defects => "defects",
            Job::Night => "night",
        }
    }

    /// How many workers the job has.
    pub(crate) fn workers(self) -> usize {
        match self {
            Job::Defects => 2,
            _ => 1,
        }
    }

    /// How many sessions the job has, one after another.
    pub(crate) fn sessions(self) -> u32 {
        match self {
            Job::Night => 3,
            Job::Defects => 2,
            _ => 1,
        }
    }

    /// The script of one of the job's sessions, on pictures of its own.
    pub(crate) fn script(
        self,
        alloc: Global,
        chance: Chance,
        extent: Extent,
    ) -> Result<Script, Fault> {
        let mut script = Script::new(alloc);
        match self {
            Job::Ground => ground(&mut script, chance, extent)?,
            Job::Sizes => sizes(&mut script, chance, extent)?,
            Job::Medians => medians(&mut script, chance, extent)?,
            Job::Masks => masks(&mut script, chance, extent)?,
            Job::Defects => defects(&mut script, chance, extent)?,
            Job::Night => night(&mut script, chance, extent)?,
        }
        Ok(script)
    }
}
