//! What a call is asked, and elements.

/// What a call makes.
#[derive(Clone, Copy)]
pub(crate) enum Way {
    Flat,
    /// Some rows of the same.
    Rows,
    Hits,
    Threshold,
    Skeleton,
    Restoration,
    Spectrum,
}

/// What an image has: levels of one byte, levels of two, or pixels in bytes.
#[derive(Clone, Copy)]
pub(crate) enum Sort {
    Bytes,
    Words,
    Pixels,
}

/// The bitmap of an element, its columns and rows, and the column and the row of its origin.
pub(crate) type Figure<'a> = (&'a [u8], (u32, u32), (u32, u32));

/// All that is given to a call but samples and the array for what is made. Each way takes a part of it.
#[derive(Clone, Copy)]
pub(crate) struct Call<'a> {
    pub(crate) way: Way,
    pub(crate) sort: Sort,
    /// The number of a flat operator.
    pub(crate) operation: u32,
    /// The number of a rank, the level of a threshold, or how many levels or sizes.
    pub(crate) k: u32,
    pub(crate) first: u32,
    pub(crate) width: u32,
    pub(crate) height: u32,
    pub(crate) maxval: u16,
    pub(crate) element: Figure<'a>,
    pub(crate) miss: Figure<'a>,
}

/// The number of a flat operator, and the number `k`.
pub(crate) type Job = (u32, u32);

/// Three pixels in a row, from their middle.
pub(crate) const BAR: Figure<'static> = (&[9, 1, 200], (3, 1), (1, 0));

/// The origin and the pixel at its right.
pub(crate) const PAIR: Figure<'static> = (&[1, 1], (2, 1), (0, 0));

/// The origin alone.
pub(crate) const DOT: Figure<'static> = (&[1], (1, 1), (0, 0));

/// The pixel at the left of the origin.
pub(crate) const LEFT: Figure<'static> = (&[1, 0], (2, 1), (1, 0));

pub(crate) fn is_set(sort: Sort) -> bool {
    matches!(sort, Sort::Pixels)
}

/// A call from the first row on, by the bar and the pixel at the left of its origin, and with no number.
pub(crate) fn first_call(way: Way, sort: Sort, sides: (u32, u32), maxval: u16) -> Call<'static> {
    let (width, height) = sides;
    Call {
        way,
        sort,
        operation: 0,
        k: 0,
        first: 0,
        width,
        height,
        maxval,
        element: BAR,
        miss: LEFT,
    }
}

pub(crate) fn with_job<'a>(mut call: Call<'a>, job: Job) -> Call<'a> {
    let (operation, k) = job;
    call.operation = operation;
    call.k = k;
    call
}

pub(crate) fn with_element<'a>(mut call: Call<'a>, element: Figure<'a>) -> Call<'a> {
    call.element = element;
    call
}

pub(crate) fn with_elements<'a>(call: Call<'a>, hit: Figure<'a>, miss: Figure<'a>) -> Call<'a> {
    let mut call = with_element(call, hit);
    call.miss = miss;
    call
}
