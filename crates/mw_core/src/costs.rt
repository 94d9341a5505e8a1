//! At most how many bytes what a core keeps may take, reckoned from shapes (`specs/Costs.antt`): whoever bounds memory asks, and a
//! test compares with what a process takes. Sums that 64 bits do not hold are told as the most that they do.

ghost use Rattle.std.specs.Prelude.{◌≡◌, ◌≤◌, ◌+◌, ◌*◌, ◌/◌, if◌then◌else◌, ℕ, Some};
ghost use Rattle.mw_core.specs.Costs.{told_bytes, bytes_of_row, bytes_of_plane, most_tiles, rows_with_room, tiled_rows, tiled_bytes, figure_bytes, is_full_box, places_of_reach, most_planes, steps_of_planes, plan_bytes, ends_by_extremum, input_named};

use mw_core_refusals::element::Element;
use mw_model::{FlatOp, GranOp, Kind, Name, Op, Reach, Shape};

/// An entry in all columns of the core, whose room doubles as they grow.
pub(crate) const ENTRY: u64 = 1024;

/// An item of the log, whose room doubles too.
pub(crate) const ITEM: u64 = 128;

/// The block that the item of a RUN has in the log.
pub(crate) const LONG_ITEM: u64 = 256;

/// What stands beside the samples of a tile: its sides, the count of its owners, and what the allocator keeps of two blocks.
const BESIDE_TILE: u64 = 160;

/// What stands beside the offsets and the runs of an element.
const BESIDE_ELEMENT: u64 = 256;

/// What a task takes in the lists of a plan, and its tile in that of a plane.
const TASK: u64 = 40;

/// What a step takes in the lists of a plan.
const STEP: u64 = 384;

/// A row of samples.
fn row_bytes(kind: Kind, maxval: u16, width: u32) -> u64
    ensures { result ≡ bytes_of_row kind maxval width }
{
    let width = u64::from(width);
    match kind {
        Kind::Bit => (width + 63) / 64 * 8,
        Kind::Grey if maxval <= 255 => width,
        Kind::Grey => width * 2,
    }
}

/// So many rows of a plane.
fn plane_of_rows(kind: Kind, maxval: u16, width: u32, rows: u64) -> u64
    ensures { (n : ℕ) → rows ≡ told_bytes n → result ≡ told_bytes (bytes_of_plane kind maxval width n) }
{
    row_bytes(kind, maxval, width).saturating_mul(rows)
}

/// How many rows a plane in one piece has.
fn rows_of(height: u32) -> u64
    ensures { result ≡ told_bytes height }
{
    u64::from(height)
}

/// A plane of this kind and maxval in one piece.
pub(crate) fn plane_bytes(kind: Kind, maxval: u16, width: u32, height: u32) -> u64
    ensures { result ≡ told_bytes (bytes_of_plane kind maxval width height) }
{
    plane_of_rows(kind, maxval, width, rows_of(height))
}

/// How many tiles of this side a frame has, at most.
pub(crate) fn tiles_on(width: u32, height: u32, side: u32) -> u64
    requires { 1 ≤ side }
    ensures { result ≡ told_bytes (most_tiles width height side) }
{
    let columns = u64::from(width / side) + 1;
    let rows = u64::from(height / side) + 1;
    columns.saturating_mul(rows)
}

/// How many rows tiles of this side have room for, where that of each goes so many rows beyond its own, within the frame.
fn roomy_rows(height: u32, side: u32, beyond: u32) -> u64
    requires { 1 ≤ side }
    ensures { result ≡ told_bytes (rows_with_room height side beyond) }
{
    let rows = u64::from(height / side) + 1;
    let height = u64::from(height);
    let further = rows.saturating_mul(u64::from(beyond));
    let all = height.saturating_add(further);
    let most = rows.saturating_mul(height);
    all.min(most)
}

/// Levels of grey that an extremum made have room for so many rows beyond those of their tile: the kernels of boxes work in the
/// vector that becomes the tile.
fn rows_in_tiles(kind: Kind, height: u32, side: u32, beyond: u32) -> u64
    requires { 1 ≤ side }
    ensures { result ≡ told_bytes (tiled_rows kind height side beyond) }
{
    match kind {
        Kind::Bit => rows_of(height),
        Kind::Grey => roomy_rows(height, side, beyond),
    }
}

/// A plane of this kind and maxval in tiles of this side that have room for so many rows beyond their own.
pub(crate) fn plane_in_tiles(shape: Shape, side: u32, beyond: u32) -> u64
    requires { 1 ≤ side }
    ensures { result ≡ told_bytes (tiled_bytes shape side beyond) }
{
    let Shape::Image(kind, width, height, maxval) = shape else {
        return 0;
    };
    let rows = rows_in_tiles(kind, height, side, beyond);
    let plane = plane_of_rows(kind, maxval, width, rows);
    let beside = tiles_on(width, height, side).saturating_mul(BESIDE_TILE);
    plane.saturating_add(beside)
}

/// An element of so many offsets, in so many runs.
fn bytes_of_figure(offsets: usize, runs: usize) -> u64
    ensures { result ≡ told_bytes (offsets * 4 + runs * 8 + BESIDE_ELEMENT) }
{
    let offsets = (offsets as u64).saturating_mul(4);
    let runs = (runs as u64).saturating_mul(8);
    let lists = offsets.saturating_add(runs);
    lists.saturating_add(BESIDE_ELEMENT)
}

/// An element.
pub(crate) fn element_bytes(element: &Element) -> u64
    ensures { result ≡ told_bytes (figure_bytes element.now) }
{
    let (offsets, runs) = (element.offsets(), element.runs());
    bytes_of_figure(offsets.len(), runs.len())
}

/// How many places a rectangle of this reach has.
fn places_of(reach: Reach) -> u64
    ensures { result ≡ told_bytes (places_of_reach reach) }
{
    let columns = u64::from(reach.left) + u64::from(reach.right) + 1;
    let rows = u64::from(reach.up) + u64::from(reach.down) + 1;
    columns.saturating_mul(rows)
}

/// Whether an element is a full rectangle that holds its origin: then it has as many offsets as its reach has places.
pub(crate) fn is_box(element: &Element) -> bool
    ensures { result ≡ is_full_box element.now.offsets }
{
    let size = element.offsets().len() as u64;
    let places = places_of(element.reach());
    element.holds_origin() && size == places
}

/// The planes of a plan: so many of the image's own kind, so many sets, and so many in levels of a byte.
#[derive(Clone, Copy)]
pub(crate) struct Planes {
    pub own: u64,
    pub sets: u64,
    pub levels: u64,
}

/// So many planes of the image's own kind.
fn own_planes(own: u64) -> Planes
    ensures { result ≡ record { own = own; sets = 0; levels = 0 } }
{
    Planes {
        own,
        sets: 0,
        levels: 0,
    }
}

/// How many planes a spectrum of so many erosions takes.
fn spectrum_planes(count: u32, is_boxed: bool) -> u64
    ensures { result ≡ count * ((if is_boxed then 0 else (count + 1) / 2) + 2) }
{
    let count = u64::from(count);
    if is_boxed {
        return count * 2;
    }
    count.saturating_mul((count + 1) / 2 + 2)
}

/// The planes that the plan of an operation has, at most; by boxes where the element is a full rectangle that holds its origin.
pub(crate) fn planes_of(op: &Op, is_boxed: bool) -> Planes
    ensures { result ≡ most_planes op.now is_boxed }
{
    match *op {
        Op::Flat(FlatOp::Threshold(_, _)) => Planes {
            own: 0,
            sets: 1,
            levels: 0,
        },
        Op::Flat(FlatOp::Erode(_, _)) => own_planes(1),
        Op::Flat(FlatOp::Dilate(_, _)) => own_planes(1),
        Op::Flat(FlatOp::Rank(_, _, _)) => own_planes(1),
        Op::Flat(FlatOp::Opening(_, _)) => own_planes(2),
        Op::Flat(FlatOp::Closing(_, _)) => own_planes(2),
        Op::Flat(_) => own_planes(4),
        Op::Gran(GranOp::Skeleton(_, _, count)) => Planes {
            own: 0,
            sets: u64::from(count) * 2 + 2,
            levels: u64::from(count) + 2,
        },
        Op::Gran(GranOp::Restore(_, _, count)) => Planes {
            own: 0,
            sets: u64::from(count) * 3 + 2,
            levels: 0,
        },
        Op::Gran(GranOp::Spectrum(_, _, count)) => own_planes(spectrum_planes(count, is_boxed)),
    }
}

/// How many steps a plan of these planes has, at most: a spectrum sums up once for each erosion.
fn steps_of(planes: &Planes) -> u64
    ensures { result ≡ told_bytes (steps_of_planes planes.now) }
{
    let first = planes.own.saturating_add(planes.sets);
    let all = first.saturating_add(planes.levels);
    let twice = all.saturating_mul(2);
    twice.saturating_add(2)
}

/// The lists of a plan of these planes, whose tiles have this side.
fn list_bytes(planes: &Planes, width: u32, height: u32, side: u32) -> u64
    requires { 1 ≤ side }
    ensures { result ≡ told_bytes (most_tiles width height side * steps_of_planes planes.now * TASK + steps_of_planes planes.now * STEP) }
{
    let (tiles, steps) = (tiles_on(width, height, side), steps_of(planes));
    let pairs = tiles.saturating_mul(steps);
    let tasks = pairs.saturating_mul(TASK);
    let lists = steps.saturating_mul(STEP);
    tasks.saturating_add(lists)
}

/// So many planes in tiles.
fn planes_in_tiles(shape: Shape, side: u32, beyond: u32, count: u64) -> u64
    requires { 1 ≤ side }
    ensures { result ≡ told_bytes (tiled_bytes shape side beyond * count) }
{
    plane_in_tiles(shape, side, beyond).saturating_mul(count)
}

/// The planes of a plan on an image of this shape, by elements that go so many rows beyond one, and the lists of its tasks.
pub(crate) fn plan_of(planes: &Planes, shape: Shape, side: u32, beyond: u32) -> u64
    requires { 1 ≤ side }
    ensures { result ≡ told_bytes (plan_bytes planes.now shape side beyond) }
{
    let Shape::Image(_, width, height, _) = shape else {
        return 0;
    };
    let set = Shape::Image(Kind::Bit, width, height, 1);
    let marked = Shape::Image(Kind::Grey, width, height, 255);
    let own = planes_in_tiles(shape, side, beyond, planes.own);
    let sets = planes_in_tiles(set, side, 0, planes.sets);
    let levels = planes_in_tiles(marked, side, 0, planes.levels);
    let lists = list_bytes(planes, width, height, side);
    let some = own.saturating_add(sets);
    let all = some.saturating_add(levels);
    all.saturating_add(lists)
}

/// Whether the last step of an operation is an extremum.
pub(crate) fn is_ended_by_extremum(op: &Op) -> bool
    ensures { result ≡ ends_by_extremum op.now }
{
    match op {
        Op::Flat(FlatOp::Erode(_, _)) => true,
        Op::Flat(FlatOp::Dilate(_, _)) => true,
        Op::Flat(FlatOp::Opening(_, _)) => true,
        Op::Flat(FlatOp::Closing(_, _)) => true,
        _ => false,
    }
}

/// The image and the elements of an operation.
pub(crate) fn inputs_of(op: &Op) -> (Name, Option<Name>, Option<Name>)
    ensures image { Some result.0 ≡ input_named op.now 0 }
    ensures first { result.1 ≡ input_named op.now 1 }
    ensures second { result.2 ≡ input_named op.now 2 }
{
    match *op {
        Op::Flat(FlatOp::Erode(f, b)) => (f, Some(b), None),
        Op::Flat(FlatOp::Dilate(f, b)) => (f, Some(b), None),
        Op::Flat(FlatOp::Opening(f, b)) => (f, Some(b), None),
        Op::Flat(FlatOp::Closing(f, b)) => (f, Some(b), None),
        Op::Flat(FlatOp::Gradient(f, b)) => (f, Some(b), None),
        Op::Flat(FlatOp::WhiteTopHat(f, b)) => (f, Some(b), None),
        Op::Flat(FlatOp::BlackTopHat(f, b)) => (f, Some(b), None),
        Op::Flat(FlatOp::Rank(f, b, _)) => (f, Some(b), None),
        Op::Flat(FlatOp::Threshold(f, _)) => (f, None, None),
        Op::Flat(FlatOp::HitMiss(f, a, b)) => (f, Some(a), Some(b)),
        Op::Gran(GranOp::Skeleton(x, b, _)) => (x, Some(b), None),
        Op::Gran(GranOp::Restore(g, b, _)) => (g, Some(b), None),
        Op::Gran(GranOp::Spectrum(f, b, _)) => (f, Some(b), None),
    }
}
