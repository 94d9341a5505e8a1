//! Writing what a FETCH is answered: its reply, and the image or the curve that it hands out.
//!
//! ```
//! let fetched = core.fetch(name)?;
//! say_fetched(alloc, &mut sink, fetched)?; // IMAGE 2 .., and the bytes of the image
//! note_fetched(alloc, &mut sink, &mut marked, other)?; // ERR 50 MEMORY, and the mark is set
//! ```
#![tactic(auto)]

ghost use Rattle.std.specs.Prelude.{ℕ, List};
ghost use Rattle.mw_wire.specs.Failures.{RemembersFailure};
ghost use Rattle.mw_session_fetch.specs.Texts.{SaysFetched, WritesMarked};
ghost use Rattle.mw_wire.specs.Writes.{Wrote};

mod marks;
mod rasters;

pub use crate::marks::note_told;
use crate::rasters::say_tiles;
use mw_model::{NoMemory, Reply};
use mw_store::gran::Curve;
use mw_store::pixel::Image;
use mw_store::{Fetched, FetchedValue, Plate, PlateView};
use mw_wire::{SessionFault, Sink, say_curve, say_image};
use std::alloc::Global;
use std::io::Write;

/// Writes an image in one piece, or that its text found no memory, and sets the mark there.
fn say_picture<W: Write>(
    alloc: Global,
    sink: &mut Sink<W>,
    marked: &mut bool,
    t: u32,
    image: &Image,
) -> Result<(), SessionFault>
    ensures said { WritesMarked (SaysFetched (Reply.Shown t) (FetchedValue.Image image.now)) marked.old marked.new (W.contents sink.old.inner) (W.contents sink.new.inner) result }
    ensures remembers { RemembersFailure sink.old.failed sink.new.failed result }
{
    match mw_netpbm::parts(alloc, image) {
        Ok(text) => say_image(sink, t, &text.front, text.rest),
        Err(NoMemory) => note_told(sink, marked, Err(NoMemory)),
    }
}

/// Writes an image, or that its text found no memory, and sets the mark there.
fn say_plate<W: Write>(
    alloc: Global,
    sink: &mut Sink<W>,
    marked: &mut bool,
    t: u32,
    plate: &Plate,
) -> Result<(), SessionFault>
    ensures said { WritesMarked (SaysFetched (Reply.Shown t) (FetchedValue.Image plate.now)) marked.old marked.new (W.contents sink.old.inner) (W.contents sink.new.inner) result }
    ensures remembers { RemembersFailure sink.old.failed sink.new.failed result }
{
    match plate.view() {
        PlateView::Image(image) => say_picture(alloc, sink, marked, t, image),
        PlateView::Tiles(plane) => say_tiles(alloc, sink, marked, t, plane),
    }
}

/// Writes a curve, or that its text found no memory, and sets the mark there.
fn say_volumes<W: Write>(
    alloc: Global,
    sink: &mut Sink<W>,
    marked: &mut bool,
    t: u32,
    curve: &Curve,
) -> Result<(), SessionFault>
    ensures said { WritesMarked (SaysFetched (Reply.Shown t) (FetchedValue.Curve curve.now)) marked.old marked.new (W.contents sink.old.inner) (W.contents sink.new.inner) result }
    ensures remembers { RemembersFailure sink.old.failed sink.new.failed result }
{
    match curve.text(alloc) {
        Ok(text) => say_curve(sink, t, &text),
        Err(NoMemory) => note_told(sink, marked, Err(NoMemory)),
    }
}

/// Writes the reply to a FETCH, and the image or the curve that it hands out. Sets the mark where it writes a refusal.
pub fn note_fetched<W: Write>(
    alloc: Global,
    sink: &mut Sink<W>,
    marked: &mut bool,
    fetched: Fetched,
) -> Result<(), SessionFault>
    ensures said { WritesMarked (SaysFetched fetched.reply fetched.value) marked.old marked.new (W.contents sink.old.inner) (W.contents sink.new.inner) result }
    ensures remembers { RemembersFailure sink.old.failed sink.new.failed result }
{
    let Fetched { reply, value } = fetched;
    match (reply, value) {
        (Reply::Shown(t), FetchedValue::Image(plate)) => say_plate(alloc, sink, marked, t, &plate),
        (Reply::Shown(t), FetchedValue::Curve(curve)) => say_volumes(
            alloc, sink, marked, t, &curve,
        ),
        (other, _) => note_told(sink, marked, Ok(other)),
    }
}

/// Writes the reply to a FETCH, and the image or the curve that it hands out.
pub fn say_fetched<W: Write>(
    alloc: Global,
    sink: &mut Sink<W>,
    fetched: Fetched,
) -> Result<(), SessionFault>
    ensures said { (text : List ℕ) × SaysFetched fetched.reply fetched.value text × Wrote (W.contents sink.old.inner) (W.contents sink.new.inner) text result }
    ensures remembers { RemembersFailure sink.old.failed sink.new.failed result }
{
    let mut marked = false;
    note_fetched(alloc, sink, &mut marked, fetched)
}

// What lower crates offer, for the crates above.
pub mod wire {
    pub use mw_wire::{
        Handler, ReplyLine, SessionFault, Sink, Source, end_by, run_session, say_told, send, tell,
    };
}
