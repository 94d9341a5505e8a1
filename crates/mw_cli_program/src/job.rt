//! A job: from what the command line asks for to the exit status.

ghost use Rattle.std.specs.Prelude.{◌≡◌, false};
ghost use Rattle.mw_server_serve.specs.mw_batch.Batches.{IsSideAsked, SessionEnds, ends_of};
ghost use Rattle.mw_server_serve.specs.mw_wire.Failures.{IsUnread};
ghost use Rattle.mw_cli_program.specs.Jobs.{IsPossible, Performed, Scripted, side_in};

use mw_cli::{BatchOptions, Job, ListenOptions, ServeOptions, VERSION};
use mw_server_listen::{Kernels, listen};
use mw_server_serve::wire::{Sink, Source};
use mw_server_serve::{Crew, batch, serve, strict_batch};
use std::alloc::Global;
use std::fs::File;
use std::io::{Read, Write};
use std::net::{Net, TcpListener, TcpStream};
use std::rt::Files;
use std::sync::Wait;
use std::thread::Threads;
use std::time::Clock;

/// The crew of a batch.
fn crew_of<'r, R>(rt: &'r R, alloc: Global, given: &BatchOptions) -> Crew<'r, R>
    ensures { result.workers ≡ given.now.workers }
{
    Crew {
        alloc,
        rt,
        workers: given.workers,
    }
}

/// How many words of eight bytes are asked for: the most that the C library learns from.
const ROOM: usize = 4190000;

/// Asks for much memory and gives it back untouched. An allocator that learns by what is freed, as that of the GNU C library
/// does, then keeps what tasks free for those that come: else their pages are made anew. Whether it is refused makes no
/// difference. It is no good for a service, which is to give back what a session took.
fn ask_once(alloc: Global) {
    match Vec::<u64>::with_capacity(alloc, ROOM) {
        Ok(_room) => (),
        Err(_refused) => (),
    }
}

/// The side of tiles that is asked for, or 0.
fn side_of(asked: Option<u32>) -> u32
    ensures { result ≡ side_in asked }
{
    asked.unwrap_or(0)
}

/// Runs a script, strictly where that is asked for.
fn run_batch<R: Threads + Sync, I: Read, O: Write, F: Write>(
    crew: Crew<R>,
    given: &BatchOptions,
    source: &mut Source<I>,
    sink: &mut Sink<O>,
    faults: &mut Sink<F>,
) -> u8
    requires side { IsSideAsked (side_in given.now.side) }
    requires source_fresh { IsUnread source.old.failed source.old.reads }
    requires sink_clear { sink.old.failed ≡ false }
    ensures { let old : SessionEnds = ends_of I.remaining O.contents F.contents source.old sink.old faults.old in
        let new : SessionEnds = ends_of I.remaining O.contents F.contents source.new sink.new faults.new in
        Scripted given.now.strict old new result }
{
    ask_once(crew.alloc);
    if given.strict {
        strict_batch(crew, source, sink, faults, side_of(given.side))
    } else {
        batch(crew, source, sink, faults, side_of(given.side))
    }
}

/// What `listen` serves.
fn board_service(given: &ListenOptions) -> mw_server_listen::Service
    ensures port { result.port ≡ given.now.port }
    ensures workers { result.workers ≡ given.now.workers }
    ensures sessions { result.sessions ≡ given.now.sessions }
    ensures side { result.side ≡ side_in given.now.side }
    ensures idle { result.idle ≡ given.now.idle }
    ensures announce { result.announce ≡ given.now.announce }
{
    mw_server_listen::Service {
        port: given.port,
        workers: given.workers,
        sessions: given.sessions,
        side: side_of(given.side),
        idle: given.idle,
        announce: given.announce,
    }
}

/// What `serve` serves.
fn separate_service(given: &ServeOptions) -> mw_server_serve::Service
    ensures port { result.port ≡ given.now.port }
    ensures workers { result.workers ≡ given.now.workers }
    ensures sessions { result.sessions ≡ given.now.sessions }
    ensures side { result.side ≡ side_in given.now.side }
    ensures idle { result.idle ≡ given.now.idle }
    ensures queue { result.queue ≡ given.now.queue }
    ensures grace { result.grace ≡ given.now.grace }
    ensures time { result.time ≡ given.now.time }
    ensures status { result.status ≡ given.now.status }
    ensures memory { result.memory ≡ given.now.memory }
{
    mw_server_serve::Service {
        port: given.port,
        workers: given.workers,
        sessions: given.sessions,
        side: side_of(given.side),
        idle: given.idle,
        queue: given.queue,
        grace: given.grace,
        time: given.time,
        status: given.status,
        memory: given.memory,
        version: VERSION,
    }
}

/// Does a job, and gives the exit status: runs a script from the source to the sink, or serves sessions over TCP and writes to
/// the sink on which port. A service that is to end with its input reads the source for that alone. The line of a fault goes
/// to `faults`.
pub fn perform<
    R: Net<Listener = TcpListener, Stream = TcpStream>
        + Files<File = File>
        + Threads
        + Wait
        + Clock
        + Sync,
    I: Read,
    O: Write,
    F: Write,
>(
    rt: &R,
    alloc: Global,
    job: &Job,
    source: &mut Source<I>,
    sink: &mut Sink<O>,
    faults: &mut Sink<F>,
) -> u8
    requires possible { IsPossible job.now }
    requires source_fresh { IsUnread source.old.failed source.old.reads }
    requires sink_clear { sink.old.failed ≡ false }
    ensures { let old : SessionEnds = ends_of I.remaining O.contents F.contents source.old sink.old faults.old in
        let new : SessionEnds = ends_of I.remaining O.contents F.contents source.new sink.new faults.new in
        Performed job.now old new result }
{
    match job {
        Job::Batch(given) => run_batch(crew_of(rt, alloc, given), given, source, sink, faults),
        Job::Listen(given) => listen(
            rt,
            alloc,
            board_service(given),
            sink,
            faults,
            &Kernels { alloc },
        ),
        Job::Serve(given) => {
            let until = given.until_end.then(|| source);
            serve(rt, alloc, separate_service(given), until, sink, faults)
        }
    }
}
