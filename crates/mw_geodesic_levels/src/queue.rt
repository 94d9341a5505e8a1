//! Places that wait, by the levels of their samples. The highest are taken first; of one level those that came last.
//!
//! The places of a level stand in chunks, and a chunk is taken at once: so its places are looked at one after another, before
//! any of them is raised from, and the processor need not wait for the memory of one before it asks for that of the next. Where
//! there are too many levels for that, a chunk has one place. Beside these, stretches wait: places of a row that were raised to
//! the level that is just taken.
//!
//! All memory is asked for at once: a head for each level, the chunks, which are used again once their places are taken, and
//! room for some stretches. So no place waits for memory. One for which there is no room is left out, and the last look finds
//! what it would raise.

ghost use Rattle.std.specs.Prelude.{◌≡◌, ◌+◌, ◌<◌, ◌≤◌, vec_len, IsSome};

use mw_model::NoMemory;
use std::alloc::Global;
use std::marker::Model;

/// No entry.
const NONE: u32 = u32::MAX;

/// The most places of a chunk.
pub(crate) const PLACES: usize = 15;

/// Of so many entries one may be lost in chunks that are not full.
const ENTRIES_TO_ONE_LOST: usize = 4;

/// So many stretches can wait.
const STRETCHES: usize = 4096;

/// Places of row y from one column to another.
#[derive(Clone, Copy)]
pub(crate) struct Stretch {
    pub y: u32,
    pub from: u32,
    pub to: u32,
}

/// Places that were taken, by their numbers, and the level at which they waited.
#[derive(Clone, Copy)]
pub(crate) struct Batch {
    pub places: [u32; PLACES],
    pub count: usize,
    pub level: usize,
}

/// A list of chunks for each level. Of a chunk the first entry tells the last one of the chunk behind it, and the others are
/// places. Contracts see how many places and stretches wait.
#[derive(Drop)]
pub(crate) struct LevelQueue {
    heads: Vec<u32>,
    entries: Vec<u32>,
    free: u32,
    most: usize,
    stretches: Vec<Stretch>,
    depth: usize,
    count: usize,
    top: usize,
}

impl Model for LevelQueue {
    ghost use Rattle.std.specs.Prelude.{ℕ, ◌+◌, ◌≤◌, vec_len};

    ghost Value = { ℕ };

    ghost view = { λ a. a.count + a.depth };

    ghost invariant = { λ a. (a.top ≤ vec_len a.heads) × (a.depth ≤ vec_len a.stretches) };
}

impl LevelQueue {
    /// The queue for levels below a count and so many entries, in which no place waits.
    pub fn new(alloc: Global, levels: usize, room: usize) -> Result<LevelQueue, NoMemory> {
        let heads = vec![in alloc; NONE; levels]?;
        let entries = Vec::with_capacity(alloc, room)?;
        let none = Stretch {
            y: 0,
            from: 0,
            to: 0,
        };
        let stretches = vec![in alloc; none; STRETCHES.min(room)]?;
        Ok(LevelQueue {
            heads,
            entries,
            free: NONE,
            most: places_of_chunk(levels, room),
            stretches,
            depth: 0,
            count: 0,
            top: 0,
        })
    }

    /// Lets the place with a number wait at a level, if there is room.
    #[inline(always)]
    pub fn push(&mut self, level: u16, number: usize)
        ensures { self.new ≤ self.old + 1 }
    {
        let level = usize::from(level);
        if level < self.heads.len() && number <= u32::MAX as usize && self.count < usize::MAX {
            let last = self.heads[level];
            self.heads[level] = keep(
                &mut self.entries,
                &mut self.free,
                self.most,
                last,
                number as u32,
            );
            self.count += 1;
            self.top = self.top.max(level + 1);
        }
    }

    /// Takes places of the highest level at which any waits.
    #[inline(always)]
    pub fn pop(&mut self) -> Option<Batch>
        ensures { IsSome result → self.new < self.old }
    {
        while self.top > 0 && self.count > 0 {
            let level = self.top - 1;
            if let Some(batch) = take_from(
                &mut self.heads,
                level,
                &mut self.entries,
                &mut self.free,
                self.most,
            ) {
                self.count = self.count.saturating_sub(batch.count.max(1));
                return Some(batch);
            }
            self.top = level;
        }
        None
    }

    /// Whether there is room for no stretch.
    #[inline(always)]
    pub fn has_no_room(&self) -> bool {
        self.depth >= self.stretches.len()
    }

    /// Lets a stretch wait, if there is room.
    #[inline(always)]
    pub fn push_stretch(&mut self, stretch: Stretch)
        ensures { self.new ≤ self.old + 1 }
    {
        if self.depth < self.stretches.len() {
            self.stretches[self.depth] = stretch;
            self.depth += 1;
        }
    }

    /// Takes the stretch that came last.
    #[inline(always)]
    pub fn pop_stretch(&mut self) -> Option<Stretch>
        ensures less { IsSome result → self.new < self.old }
        ensures kept { self.new ≤ self.old }
    {
        if self.depth == 0 {
            return None;
        }
        self.depth -= 1;
        Some(self.stretches[self.depth])
    }
}

/// How many places a chunk has: as many as `PLACES`, a power of two less one, or fewer where chunks that are not full could
/// take too much of the room, one for each level.
fn places_of_chunk(levels: usize, room: usize) -> usize {
    let lost = room / ENTRIES_TO_ONE_LOST;
    if levels <= lost / 16 {
        return PLACES;
    }
    if levels <= lost / 8 {
        return 7;
    }
    if levels <= lost / 4 {
        return 3;
    }
    1
}

/// Writes a place behind the last one of a level, or into a chunk of its own, and tells where it stands.
#[inline(always)]
fn keep(entries: &mut Vec<u32>, free: &mut u32, most: usize, last: u32, place: u32) -> u32 {
    let next = last as usize + 1;
    if next < entries.len() && next <= NONE as usize && next & most != 0 {
        entries[next] = place;
        return next as u32;
    }
    let start = take_chunk(entries, free, most);
    if start < entries.len() && entries.len() - start > 1 && start < NONE as usize {
        entries[start] = last;
        entries[start + 1] = place;
        return start as u32 + 1;
    }
    last
}

/// A chunk that is free, or one behind the last one. If there is none, the number is none of an entry.
#[inline(always)]
fn take_chunk(entries: &mut Vec<u32>, free: &mut u32, most: usize) -> usize {
    let at = *free as usize;
    if at < entries.len() {
        *free = entries[at];
        return at;
    }
    let start = entries.len();
    if entries.capacity().min(NONE as usize).saturating_sub(start) > most {
        lengthen(entries, most);
        return start;
    }
    NONE as usize
}

/// Puts a chunk behind the last one.
fn lengthen(entries: &mut Vec<u32>, most: usize) {
    for _entry in 0..most.saturating_add(1) {
        if entries.len() < entries.capacity() {
            entries.push_reserved(NONE);
        }
    }
}

/// Copies so many places that stand behind an entry.
#[inline(always)]
fn copy_places(entries: &Vec<u32>, start: usize, count: usize) -> [u32; PLACES]
    requires { start + count < vec_len entries.now }
{
    let mut places = [NONE; PLACES];
    for k in 0..count.min(PLACES) {
        places[k] = entries[start + 1 + k];
    }
    places
}

/// Takes the first chunk of the list of a level.
#[inline(always)]
fn take_from(
    heads: &mut Vec<u32>,
    level: usize,
    entries: &mut Vec<u32>,
    free: &mut u32,
    most: usize,
) -> Option<Batch>
    requires { level < vec_len heads.old }
    ensures { vec_len heads.new ≡ vec_len heads.old }
{
    let at = heads[level];
    if at as usize >= entries.len() {
        return None;
    }
    let count = (at as usize & most).min(at as usize);
    let start = at as usize - count;
    let places = copy_places(entries, start, count);
    heads[level] = entries[start];
    entries[start] = *free;
    *free = start as u32;
    Some(Batch {
        places,
        count,
        level,
    })
}
