//! Writing an image in tiles: row by row, so that no plane is put together. All memory is asked for before the first byte.

ghost use Rattle.std.specs.Prelude.{◌≡◌, ◌≤◌, ◌++◌, List, length, vec_capacity};
ghost use Rattle.mw_model.specs.Rasters.{Raster};
ghost use Rattle.mw_netpbm.specs.Rows.{rows_bytes};
ghost use Rattle.mw_store.specs.mw_tile_planes.Rows.{AreCutFrom};
ghost use Rattle.mw_wire.specs.Failures.{RemembersFailure};
ghost use Rattle.mw_session_fetch.specs.Texts.{SaysBytes, SaysFetched, WritesMarked};
ghost use Rattle.mw_wire.specs.Writes.{Wrote};

use crate::marks::note_told;
use mw_model::{NoMemory, Reply};
use mw_netpbm::{RowBytes, header};
use mw_store::FetchedValue;
use mw_store::pixel::Plane;
use mw_store::tiles::{TiledRows, TilesView, WholePlane};
use mw_wire::{ReplyLine, SessionFault, Sink, image_line, send, send_both};
use std::alloc::Global;
use std::io::Write;

/// Writes all rows. There is a plane for one, and room for its bytes.
fn send_rows<W: Write, P: RowBytes>(
    sink: &mut Sink<W>,
    tiles: &TiledRows<P>,
    row: &mut Plane<P>,
    text: &mut Vec<u8>,
) -> Result<(), SessionFault>
    requires width { row.old.width ≡ tiles.now.tiling.width }
    requires height { row.old.height ≡ 1 }
    requires text { (cells : List P) → length cells ≡ tiles.now.tiling.width → length (P.bytes tiles.now.tiling.width cells) ≤ vec_capacity text.old }
    ensures wrote { (f : Raster P) → AreCutFrom f tiles.now → Wrote (W.contents sink.old.inner) (W.contents sink.new.inner) (rows_bytes P.bytes f.width f.height f.cells) result }
    ensures remembers { RemembersFailure sink.old.failed sink.new.failed result }
{
    for y in 0..tiles.height() {
        tiles.read(y, row);
        P::fill(text, row.held());
        send(sink, text)?;
    }
    Ok(())
}

/// Writes a line, the header and all rows.
fn send_image<W: Write, P: RowBytes>(
    sink: &mut Sink<W>,
    line: &ReplyLine,
    head: &[u8],
    tiles: &TiledRows<P>,
    row: &mut Plane<P>,
    text: &mut Vec<u8>,
) -> Result<(), SessionFault>
    requires width { row.old.width ≡ tiles.now.tiling.width }
    requires height { row.old.height ≡ 1 }
    requires text { (cells : List P) → length cells ≡ tiles.now.tiling.width → length (P.bytes tiles.now.tiling.width cells) ≤ vec_capacity text.old }
    ensures wrote { (f : Raster P) → AreCutFrom f tiles.now → Wrote (W.contents sink.old.inner) (W.contents sink.new.inner) (line.now ++ (head.now ++ rows_bytes P.bytes f.width f.height f.cells)) result }
    ensures remembers { RemembersFailure sink.old.failed sink.new.failed result }
{
    send_both(sink, line.as_bytes(), head)?;
    send_rows(sink, tiles, row, text)
}

/// Writes the reply that hands out the image with this header, or that there is no room for a row, and sets the mark there.
fn say_rows<W: Write, P: RowBytes>(
    alloc: Global,
    sink: &mut Sink<W>,
    marked: &mut bool,
    t: u32,
    head: &[u8],
    tiles: &TiledRows<P>,
) -> Result<(), SessionFault>
    ensures said { (f : Raster P) → AreCutFrom f tiles.now → WritesMarked (SaysBytes t (head.now ++ rows_bytes P.bytes f.width f.height f.cells)) marked.old marked.new (W.contents sink.old.inner) (W.contents sink.new.inner) result }
    ensures remembers { RemembersFailure sink.old.failed sink.new.failed result }
{
    let (width, height) = (tiles.width(), tiles.height());
    let count = P::byte_count(width);
    let Ok(mut row) = Plane::<P>::blank(alloc, width, 1) else {
        return note_told(sink, marked, Err(NoMemory));
    };
    let Ok(mut text) = Vec::with_capacity(alloc, count) else {
        return note_told(sink, marked, Err(NoMemory));
    };
    let line = image_line(t, head.len() + height as usize * count);
    send_image(sink, &line, head, tiles, &mut row, &mut text)
}

/// Writes an image in tiles, or that it found no memory, and sets the mark there.
pub(crate) fn say_tiles<W: Write>(
    alloc: Global,
    sink: &mut Sink<W>,
    marked: &mut bool,
    t: u32,
    plane: &WholePlane,
) -> Result<(), SessionFault>
    ensures said { WritesMarked (SaysFetched (Reply.Shown t) (FetchedValue.Image plane.now)) marked.old marked.new (W.contents sink.old.inner) (W.contents sink.new.inner) result }
    ensures remembers { RemembersFailure sink.old.failed sink.new.failed result }
{
    let (width, height) = (plane.width(), plane.height());
    let Ok(head) = header(alloc, plane.kind(), width, height, plane.maxval()) else {
        return note_told(sink, marked, Err(NoMemory));
    };
    match plane.view() {
        TilesView::Bits(tiles) => say_rows(alloc, sink, marked, t, &head, &tiles),
        TilesView::Grey8(tiles, _) => say_rows(alloc, sink, marked, t, &head, &tiles),
        TilesView::Grey16(tiles, _) => say_rows(alloc, sink, marked, t, &head, &tiles),
    }
}
