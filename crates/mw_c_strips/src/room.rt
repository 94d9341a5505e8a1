//! Room for rows of an image.

ghost use Rattle.std.specs.Prelude.{◌≡◌, ◌+◌, ◌*◌, nat_le, true};
ghost use Rattle.mw_c_arrays.specs.Sources.{IsArrayImage, array_sample_count, picture_in};
ghost use Rattle.mw_c_strips.specs.Rows.{AreRows, are_rows, fill_rows};

use mw_c_arrays::ArrayImage;

/// Whether so many samples fill rows of this width.
fn fill_rows(room: usize, width: u32) -> bool
    ensures { result ≡ fill_rows room width }
{
    if width == 0 {
        return false;
    }
    room % width as usize == 0
}

/// Whether there are so many samples from row `first` on.
fn are_within(first: u32, room: usize, width: u32, count: usize) -> bool
    ensures { result ≡ nat_le (first * width + room) count }
{
    if count < room {
        return false;
    }
    let above = first as usize * width as usize;
    above <= count - room
}

/// Whether so many samples are rows from row `first` on, by the numbers of an image.
fn are_rows_of(first: u32, room: usize, width: u32, count: usize) -> bool
    ensures { result ≡ are_rows first room width count }
{
    let some = room >= 1;
    let whole = fill_rows(room, width);
    let within = are_within(first, room, width, count);
    (some && whole) && within
}

/// Whether so many samples are whole rows, one at least, and the image has them from row `first` on.
pub fn are_rows(f: ArrayImage<'_>, first: u32, room: usize) -> bool
    ensures value { result ≡ are_rows first room (picture_in f.entry).width (array_sample_count f.entry) }
    ensures rows { IsArrayImage f.entry → result ≡ true → AreRows first room (picture_in f.entry) }
{
    are_rows_of(first, room, f.width(), f.count())
}
