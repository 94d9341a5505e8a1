//! The part of a run of cells that a side of a place has.
ghost use Rattle.std.specs.Prelude.{◌≡◌, ℕ, ◌+◌, ◌-◌, ◌<◌, ◌≤◌, length, slice_index_or};
ghost use Rattle.mw_line_lent.specs.Boxes.{IsPutAt};
ghost use Rattle.mw_offset_lent.specs.Parts.{IsPartOf};

use mw_line::pixel::Pixel;

/// The cells of a row that a place has: `count` after the `behind` first ones of the row, from column `ahead` of the place on.
#[derive(Clone, Copy)]
pub(crate) struct Part {
    pub ahead: usize,
    pub behind: usize,
    pub count: usize,
}

/// The part that a side of `size` cells has of a run of `long` cells, of which the first one has this number.
pub(crate) fn part_of(first: i64, long: usize, size: u32) -> Part
    ensures { IsPartOf first long size result }
{
    let away = first.unsigned_abs() as usize;
    let size = size as usize;
    if first < 0 {
        let behind = away.min(long);
        return Part {
            ahead: 0,
            behind,
            count: size.min(long - behind),
        };
    }
    let ahead = away.min(size);
    Part {
        ahead,
        behind: 0,
        count: (size - ahead).min(long),
    }
}

/// Fills so many places from one on.
pub(crate) fn fill<P: Pixel>(out: &mut [P], at: usize, n: usize, neutral: P)
    requires { at + n ≤ length out.old }
    ensures put { IsPutAt at n out.old out.new }
    ensures made { (i : ℕ) (d : P) → i < n → slice_index_or out.new (at + i) d ≡ neutral }
{
    for i in 0..n {
        out[at + i] = neutral;
    }
}
