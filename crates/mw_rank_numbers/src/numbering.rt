//! The levels of a part of a window by their numbers, from 0 on in rising order. Level 0 is numbered in any case, so that
//! a rank of nothing, which is 0, has number 0.
ghost use Rattle.std.specs.Prelude.{◌≡◌, ℕ, ◌+◌, ◌*◌, ◌<◌, ◌≤◌, length, map, slice_index, slice_index_or, slice_set, [], ◌++◌, IfOk, OnOk};
ghost use Rattle.mw_rank.specs.Ranks.{GainsRow, HasRows};
ghost use Rattle.mw_rank_numbers.specs.LevelSets.{set_words, bit_in, below_in, IsBack, IsSummed};
ghost use Rattle.mw_rank_numbers.specs.Numbers.{level_in_part, IsNumbering};

use crate::level_set::{WORDS, mark, number_of, sums_of};
use mw_model::NoMemory;
use mw_rank::pixel::{Grey, Pixel, copies};
use mw_rank::sample_of;
use mw_rank::tile::Window;
use std::alloc::Global;

/// A rectangle of a window, counted from the window's first column and row.
#[derive(Clone, Copy)]
pub struct Part {
    pub column: u32,
    pub row: u32,
    pub width: u32,
    pub height: u32,
}

/// The numbers of the levels of a part of a window, by rows, and a sample of the level of each number.
#[derive(Drop)]
pub struct Numbered<P: Pixel> {
    pub numbers: Vec<u16>,
    pub levels: Vec<P>,
}

/// Numbers of levels: how many levels of the set are below.
#[derive(Clone, Copy)]
struct Order<'a> {
    words: &'a [u64],
    before: &'a [u32],
}

/// The samples of a row of a part.
#[inline(always)]
fn part_row<P: Grey>(window: &Window<P>, part: Part, j: u32) -> &[P]
    requires across { part.column + part.width ≤ window.now.place.width }
    requires down { part.row + part.height ≤ window.now.place.height }
    requires row { j < part.height }
    ensures size { length result.now ≡ part.width }
    ensures levels { (i : ℕ) → i < part.width → P.level (slice_index_or result.now i P.TOP) ≡ level_in_part P.level P.TOP window.now part i j }
{
    // for the range of its rows
    let _place = window.place();
    let row = window.row(part.row + j);
    let from = part.column as usize;
    &row[from..from + part.width as usize]
}

/// Puts the levels of samples into the set.
fn mark_samples<P: Pixel>(words: &mut [u64], samples: &[P])
    requires { length words.old ≡ set_words }
    ensures size { length words.new ≡ set_words }
    ensures marked { (i : ℕ) → i < length samples.now → bit_in words.new (P.level (slice_index_or samples.now i P.TOP)) ≡ 1 }
    ensures kept { (v : ℕ) → bit_in words.old v ≡ 1 → bit_in words.new v ≡ 1 }
{
    for sample in samples {
        mark(words, sample.value());
    }
}

/// Puts the levels of the part into the set, and level 0.
fn mark_part<P: Grey>(words: &mut [u64], window: &Window<P>, part: Part)
    requires words { length words.old ≡ set_words }
    requires across { part.column + part.width ≤ window.now.place.width }
    requires down { part.row + part.height ≤ window.now.place.height }
    ensures size { length words.new ≡ set_words }
    ensures marked { (i j : ℕ) → i < part.width → j < part.height → bit_in words.new (level_in_part P.level P.TOP window.now part i j) ≡ 1 }
    ensures lowest { bit_in words.new 0 ≡ 1 }
{
    mark(words, 0);
    for j in 0..part.height {
        mark_samples(words, part_row(window, part, j));
    }
}

/// Puts a sample at a number.
#[inline(always)]
fn put_at<P: Pixel>(levels: &mut [P], number: u16, sample: P)
    requires { number < length levels.old }
    ensures { levels.new ≡ slice_set levels.old number sample }
{
    levels[number as usize] = sample;
}

/// Adds the numbers of samples, and puts each sample where its number finds it.
fn push_numbers<P: Pixel>(
    numbers: &mut Vec<u16>,
    levels: &mut [P],
    order: Order,
    samples: &[P],
) -> Result<(), NoMemory>
    requires size { length order.words.now ≡ set_words }
    requires summed { IsSummed order.words.now order.before.now (length levels.old) }
    requires marked { (i : ℕ) → i < length samples.now → bit_in order.words.now (P.level (slice_index_or samples.now i P.TOP)) ≡ 1 }
    ensures size { length levels.new ≡ length levels.old }
    ensures numbers { OnOk result (GainsRow (λ n. n) (λ i. below_in order.entry.words.now (P.level (slice_index_or samples.now i P.TOP))) (length samples.now) numbers.old.items numbers.new.items) }
    ensures back { OnOk result ((i : ℕ) → i < length samples.now → IsBack P.level order.entry.words.now levels.new (P.level (slice_index_or samples.now i P.TOP))) }
    ensures kept { (v : ℕ) → bit_in order.entry.words.now v ≡ 1 → IsBack P.level order.entry.words.now levels.old v → IsBack P.level order.entry.words.now levels.new v }
{
    for sample in samples {
        let number = number_of(order.words, order.before, sample.value());
        put_at(levels, number, *sample);
        numbers.push(number)?;
    }
    Ok(())
}

/// Adds the numbers of all levels of the part, row by row.
fn number_part<P: Grey>(
    numbers: &mut Vec<u16>,
    levels: &mut [P],
    order: Order,
    window: &Window<P>,
    part: Part,
) -> Result<(), NoMemory>
    requires across { part.column + part.width ≤ window.now.place.width }
    requires down { part.row + part.height ≤ window.now.place.height }
    requires size { length order.words.now ≡ set_words }
    requires summed { IsSummed order.words.now order.before.now (length levels.old) }
    requires marked { (i j : ℕ) → i < part.width → j < part.height → bit_in order.words.now (level_in_part P.level P.TOP window.now part i j) ≡ 1 }
    requires lowest { bit_in order.words.now 0 ≡ 1 }
    requires zero { IsBack P.level order.words.now levels.old 0 }
    requires empty { numbers.old.items ≡ [] }
    ensures size { length levels.new ≡ length levels.old }
    ensures numbers { OnOk result (HasRows (λ n. n) (λ i j. below_in order.entry.words.now (level_in_part P.level P.TOP window.now part i j)) part.width part.height numbers.new.items) }
    ensures back { OnOk result ((i j : ℕ) → i < part.width → j < part.height → IsBack P.level order.entry.words.now levels.new (level_in_part P.level P.TOP window.now part i j)) }
    ensures zero { OnOk result (IsBack P.level order.entry.words.now levels.new 0) }
{
    for j in 0..part.height {
        push_numbers(numbers, levels, order, part_row(window, part, j))?;
    }
    Ok(())
}

/// The set of all levels of a part, and level 0.
fn set_of<P: Grey>(alloc: Global, window: &Window<P>, part: Part) -> Result<Vec<u64>, NoMemory>
    requires across { part.column + part.width ≤ window.now.place.width }
    requires down { part.row + part.height ≤ window.now.place.height }
    ensures size { IfOk result (λ v. length v.items ≡ set_words) }
    ensures marked { IfOk result (λ v. (i j : ℕ) → i < part.width → j < part.height → bit_in v.items (level_in_part P.level P.TOP window.now part i j) ≡ 1) }
    ensures lowest { IfOk result (λ v. bit_in v.items 0 ≡ 1) }
{
    let mut set = vec![in alloc; 0u64; WORDS]?;
    mark_part(set.as_mut_slice(), window, part);
    Ok(set)
}

/// The numbers of the levels of a part of a window. It may want memory (`NoMemory`).
pub fn numbers_of<P: Grey>(
    alloc: Global,
    window: &Window<P>,
    part: Part,
) -> Result<Numbered<P>, NoMemory>
    requires across { part.column + part.width ≤ window.now.place.width }
    requires down { part.row + part.height ≤ window.now.place.height }
    ensures numbers { IfOk result (λ n. (number : ℕ → ℕ) × IsNumbering P.level P.TOP number n.levels.items window.now part n.numbers.items) }
    ensures under { IfOk result (λ n. (p : ℕ) → p < length n.numbers.items → slice_index n.numbers.items p < length n.levels.items) }
    ensures some { IfOk result (λ n. 1 ≤ length n.levels.items) }
{
    let set = set_of(alloc, window, part)?;
    let sums = sums_of(alloc, &set)?;
    let order = Order {
        words: &set,
        before: &sums.before,
    };
    let mut levels = copies(alloc, sums.count as usize, sample_of::<P>(0))?;
    let count = (part.height as usize).saturating_mul(part.width as usize);
    let mut numbers = Vec::with_capacity(alloc, count)?;
    number_part(&mut numbers, levels.as_mut_slice(), order, window, part)?;
    Ok(Numbered { numbers, levels })
}

/// The sample of a number, or that of the greatest level where there is none.
#[inline(always)]
fn sample_at<P: Pixel>(levels: &[P], number: u16) -> P
    ensures { result ≡ slice_index_or levels.now number P.TOP }
{
    if (number as usize) < levels.len() {
        levels[number as usize]
    } else {
        P::TOP
    }
}

/// Adds the levels of numbers; a number without a level stands for the greatest.
pub fn push_levels<P: Pixel>(
    out: &mut Vec<P>,
    levels: &[P],
    numbers: &[u16],
) -> Result<(), NoMemory>
    ensures { OnOk result (out.new.items ≡ out.old.items ++ map (λ n. slice_index_or levels.now n P.TOP) numbers.now) }
{
    for number in numbers {
        out.push(sample_at(levels, *number))?;
    }
    Ok(())
}
