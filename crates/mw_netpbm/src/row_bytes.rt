//! Rows of samples as the bytes that they have in a written image, for who writes an image row by row: memory is asked for
//! the header alone. A row is lent as what holds a plane of one row: words for a set.

ghost use Rattle.std.specs.Prelude.{◌≡◌, ◌≤◌, ℕ, List, length, IfOk, string_bytes, vec_capacity};
ghost use Rattle.mw_model.specs.declared.limits.TheConstants.{SIDE_LIMIT};
ghost use Rattle.mw_netpbm.specs.Rows.{header_as};

use crate::writer::{append, grey_head, push_packed, push_words, set_head};
use mw_model::{Kind, NoMemory};
use mw_netpbm_plain::pixel::{Bit, Listed, Planar, Words};
use std::alloc::{AllocError, Global};

/// Samples of which rows are written.
pub trait RowBytes: Planar {
    /// The bytes of a row of so many samples.
    ghost bytes: { ℕ → List Self → List ℕ };

    /// How many bytes a row of so many samples has.
    fn byte_count(width: u32) -> usize
        requires { width ≤ SIDE_LIMIT }
        ensures value { (row : List Self) → length row ≡ width → length (bytes width row) ≡ result }
        ensures small { result ≤ 16384 };

    /// Puts the bytes of a plane of one row in the place of those that stand in `out`, where there is room for them.
    fn fill(out: &mut Vec<u8>, row: &Self::Held)
        requires one { (Self.Held.shown row.now).height ≡ 1 }
        requires room { length (bytes (Self.Held.shown row.now).width (Self.Held.shown row.now).cells) ≤ vec_capacity out.old }
        ensures value { out.new.items ≡ bytes (Self.Held.shown row.now).width (Self.Held.shown row.now).cells }
        ensures room { vec_capacity out.old ≤ vec_capacity out.new };
}

impl RowBytes for Bit {
    ghost use Rattle.mw_netpbm.specs.Rows.{set_row};

    ghost bytes = { set_row };

    fn byte_count(width: u32) -> usize {
        (width as usize + 7) / 8
    }

    fn fill(out: &mut Vec<u8>, row: &Words)
        requires one { row.now.height ≡ 1 }
        requires room { length (set_row row.now.width row.now.cells) ≤ vec_capacity out.old }
        ensures value { out.new.items ≡ set_row row.now.width row.now.cells }
        ensures room { vec_capacity out.old ≤ vec_capacity out.new }
    {
        out.clear();
        push_packed(out, (row.width() as usize + 7) / 8, row.row(0));
    }
}

impl RowBytes for u8 {
    ghost use Rattle.mw_netpbm.specs.Rows.{byte_row};

    ghost bytes = { byte_row };

    fn byte_count(width: u32) -> usize {
        width as usize
    }

    fn fill(out: &mut Vec<u8>, row: &Listed<u8>)
        requires one { row.now.height ≡ 1 }
        requires room { length (byte_row row.now.width row.now.cells) ≤ vec_capacity out.old }
        ensures value { out.new.items ≡ byte_row row.now.width row.now.cells }
        ensures room { vec_capacity out.old ≤ vec_capacity out.new }
    {
        out.clear();
        append(out, row.samples());
    }
}

impl RowBytes for u16 {
    ghost use Rattle.mw_netpbm.specs.Rows.{word_row};

    ghost bytes = { word_row };

    fn byte_count(width: u32) -> usize {
        2 * width as usize
    }

    fn fill(out: &mut Vec<u8>, row: &Listed<u16>)
        requires one { row.now.height ≡ 1 }
        requires room { length (word_row row.now.width row.now.cells) ≤ vec_capacity out.old }
        ensures value { out.new.items ≡ word_row row.now.width row.now.cells }
        ensures room { vec_capacity out.old ≤ vec_capacity out.new }
    {
        out.clear();
        push_words(out, row.samples());
    }
}

fn head_text(
    alloc: Global,
    kind: Kind,
    width: u32,
    height: u32,
    maxval: u16,
) -> Result<String, AllocError>
    ensures { IfOk result (λ s. string_bytes s ≡ header_as kind width height maxval) }
{
    match kind {
        Kind::Bit => set_head(alloc, width, height),
        Kind::Grey => grey_head(alloc, width, height, maxval),
    }
}

/// The header of a written image.
pub fn header(
    alloc: Global,
    kind: Kind,
    width: u32,
    height: u32,
    maxval: u16,
) -> Result<Vec<u8>, NoMemory>
    ensures { IfOk result (λ v. v.items ≡ header_as kind width height maxval) }
{
    let text = head_text(alloc, kind, width, height, maxval)?;
    Ok(text.into_bytes())
}
