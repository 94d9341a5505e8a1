//! How clients come to their sessions: who accepts connections, who seats their clients, and who serves them.

ghost use Rattle.std.specs.Prelude.{◌≡◌};
ghost use Rattle.mw_batch.specs.Batches.{IsSideAsked};

use crate::connection::{Limits, serve_connection};
use crate::counts::{Counts, count};
use crate::fault::ServeFault;
use crate::guests::{Guests, Seated};
use crate::queue::Queue;
use crate::replies::Replies;
use crate::seats::Seats;
use crate::service::Service;
use crate::state::state_line;
use crate::visit::{Incoming, Outgoing, Visit};
use mw_batch::Crew;
use mw_server_socket::wire::{Sink, Source, send};
use mw_server_socket::{bound, finish, next_client, turn_away};
use std::alloc::Global;
use std::fs::File;
use std::net::{Shutdown, TcpListener, TcpStream};
use std::os::fd::OwnedFd;
use std::sync::atomic::{AtomicBool, AtomicUsize, Ordering};
use std::sync::{Arc, Wait};
use std::thread::{Scope, SpawnError, Threads};
use std::time::Clock;

/// How many clients that were turned away are waited for at once, so that what they were told arrives.
const MOST_LEAVING: usize = 16;

/// How many seconds who asks for the state may take.
const STATE_WAIT: u32 = 1;

/// What the threads of a service share: one accepts connections until the service is over, one seats clients where they queue, one
/// tells the state where it can be asked for, and each session has a thread of its own.
#[derive(Drop)]
pub(crate) struct Door {
    pub listener: TcpListener,
    pub asked: Option<TcpListener>,
    pub is_over: AtomicBool,
    pub seats: Seats,
    pub guests: Guests,
    pub queue: Option<Queue>,
    pub leaving: AtomicUsize,
    pub counts: Counts,
    pub sizes: Option<File>,
}

impl Door {
    /// A door that nobody has come through. None where there is no memory for it.
    pub fn new(
        alloc: Global,
        service: Service,
        listener: TcpListener,
        asked: Option<TcpListener>,
        sizes: Option<File>,
    ) -> Option<Door> {
        let queue = match service.queue {
            Some(more) => {
                let most = service.sessions.saturating_add(more as usize);
                Some(Queue::new(alloc, most).ok()?)
            }
            None => None,
        };
        Some(Door {
            listener,
            asked,
            is_over: AtomicBool::new(false),
            seats: Seats::new(service.sessions),
            guests: Guests::new(alloc, service.sessions).ok()?,
            queue,
            leaving: AtomicUsize::new(0),
            counts: Counts::new(alloc).ok()?,
            sizes,
        })
    }
}

/// What wakes the threads that wait for connections: copies of their listeners.
#[derive(Drop)]
pub(crate) struct Bell {
    pub listener: TcpListener,
    pub asked: Option<TcpListener>,
}

/// Serves the connection of a client, which has its place. A fault of its wire ends this session alone.
fn serve_guest<T: Threads + Wait + Clock + Sync>(
    crew: Crew<T>,
    service: Service,
    guest: &Seated,
    door: &Door,
)
    requires side { IsSideAsked service.side }
{
    let visit = Visit::new(guest, crew.rt, &door.counts, service.time);
    count(&door.counts.begun);
    let limits = Limits {
        side: service.side,
        idle: service.idle,
        memory: service.memory,
    };
    let _served = serve_connection(
        crew,
        &visit,
        &mut Source::new(Incoming { visit: &visit }),
        Outgoing {
            visit: &visit,
            replies: Replies::new(),
        },
        limits,
    );
    count(&door.counts.ended);
}

/// Gives the connection of a client a place, and serves it. Without memory for it, or where the service ends, it is closed.
fn serve_stream<T: Threads + Wait + Clock + Sync>(
    crew: Crew<T>,
    service: Service,
    stream: TcpStream,
    door: &Door,
)
    requires side { IsSideAsked service.side }
{
    let rt = crew.rt;
    let Ok(guest) = Arc::new(crew.alloc, Seated::new(stream)) else {
        return;
    };
    let Ok(shared) = Arc::try_clone(&guest) else {
        return;
    };
    let Some(at) = door.guests.enter(rt, shared) else {
        return;
    };
    serve_guest(crew, service, &guest, door);
    door.guests.leave(rt, at);
}

/// Serves the connection of a client, and gives its seat back.
fn serve_seated<R: Threads + Wait + Clock + Sync>(
    rt: &R,
    alloc: Global,
    service: Service,
    stream: TcpStream,
    door: &Door,
)
    requires side { IsSideAsked service.side }
{
    let crew = Crew {
        alloc,
        rt,
        workers: service.workers,
    };
    serve_stream(crew, service, stream, door);
    if let Some(queue) = &door.queue {
        queue.leave(rt);
    }
    door.seats.give(rt);
}

/// Serves the connection of a client in a thread that ends with the session, or in this one where none can be started. The C
/// library keeps blocks that a thread freed for this thread, and with each what lies below it, until the thread ends.
fn serve_apart<'h, E: 'h, R: Threads + Wait + Clock + Sync>(
    scope: &Scope<'h, E>,
    rt: &'h R,
    alloc: Global,
    service: Service,
    stream: TcpStream,
    door: &'h Door,
)
    requires side { IsSideAsked service.side }
{
    let started = scope.spawn(
        move || -> ()
            requires { IsSideAsked service.side }
        { serve_seated(rt, alloc, service, stream, door) },
    );
    if let Err(SpawnError { value: serve_here }) = started {
        serve_here();
    }
}

/// Accepts one connection after the other where a seat is free, and has each served.
fn accept_seated<'h, E: 'h, R: Threads + Wait + Clock + Sync>(
    scope: &Scope<'h, E>,
    rt: &'h R,
    alloc: Global,
    service: Service,
    door: &'h Door,
)
    requires side { IsSideAsked service.side }
{
    for _ in 0..u64::MAX {
        door.seats.take(rt);
        let Some(stream) = next_client(&door.listener, rt, &door.is_over) else {
            door.seats.give(rt);
            return;
        };
        serve_apart(scope, rt, alloc, service, stream, door);
    }
}

/// Tells a client that there is no room for it. What it sends is read and dropped in a thread, so that it hears that; where so
/// many leave already, or no thread can be started, its connection is closed at once.
fn turn_away_apart<'h, E: 'h, R: Threads + Clock + Sync>(
    scope: &Scope<'h, E>,
    rt: &'h R,
    stream: TcpStream,
    door: &'h Door,
) {
    let _told = turn_away(&stream, &mut Sink::new(&stream));
    count(&door.counts.turned_away);
    let before = door.leaving.fetch_add(1, Ordering::SeqCst);
    if before >= MOST_LEAVING {
        door.leaving.fetch_sub(1, Ordering::SeqCst);
        return;
    }
    let started = scope.spawn(move || {
        finish(rt, &stream, &mut Source::new(&stream));
        door.leaving.fetch_sub(1, Ordering::SeqCst);
    });
    if started.is_err() {
        door.leaving.fetch_sub(1, Ordering::SeqCst);
    }
}

/// Accepts one connection after the other, and has each wait in the queue, or turns it away. At the end all that wait still are
/// turned away.
fn accept_queued<'h, E: 'h, R: Threads + Wait + Clock + Sync>(
    scope: &Scope<'h, E>,
    rt: &'h R,
    door: &'h Door,
    queue: &Queue,
) {
    for _ in 0..u64::MAX {
        let Some(stream) = next_client(&door.listener, rt, &door.is_over) else {
            break;
        };
        if let Some(stream) = queue.enter(rt, stream) {
            turn_away_apart(scope, rt, stream, door);
        }
    }
    for _ in 0..u64::MAX {
        let Some(stream) = queue.rest(rt) else {
            return;
        };
        turn_away_apart(scope, rt, stream, door);
    }
}

/// Has one client of the queue after the other served, where a seat is free.
fn seat_queued<'h, E: 'h, R: Threads + Wait + Clock + Sync>(
    scope: &Scope<'h, E>,
    rt: &'h R,
    alloc: Global,
    service: Service,
    door: &'h Door,
    queue: &Queue,
)
    requires side { IsSideAsked service.side }
{
    for _ in 0..u64::MAX {
        door.seats.take(rt);
        let Some(stream) = queue.next(rt) else {
            door.seats.give(rt);
            return;
        };
        serve_apart(scope, rt, alloc, service, stream, door);
    }
}

/// Accepts connections, and has each served, queue or turned away.
pub(crate) fn accept_all<'h, E: 'h, R: Threads + Wait + Clock + Sync>(
    scope: &Scope<'h, E>,
    rt: &'h R,
    alloc: Global,
    service: Service,
    door: &'h Door,
)
    requires side { IsSideAsked service.side }
{
    match &door.queue {
        Some(queue) => accept_queued(scope, rt, door, queue),
        None => accept_seated(scope, rt, alloc, service, door),
    }
}

/// Tells the state to who asks for it, and closes the connection.
fn tell_state<R: Clock>(rt: &R, alloc: Global, service: Service, stream: &TcpStream, door: &Door) {
    if !bound(stream, Some(STATE_WAIT)) {
        return;
    }
    let Some(line) = state_line(alloc, &door.counts, &door.sizes, service.version) else {
        return;
    };
    let _told = send(&mut Sink::new(stream), line.as_bytes());
    finish(rt, stream, &mut Source::new(stream));
}

/// Tells the state to one who asks for it after the other.
fn tell_all<R: Clock>(rt: &R, alloc: Global, service: Service, door: &Door, asked: &TcpListener) {
    for _ in 0..u64::MAX {
        let Some(stream) = next_client(asked, rt, &door.is_over) else {
            return;
        };
        tell_state(rt, alloc, service, &stream, door);
    }
}

/// Starts the thread that seats clients, where they queue.
fn start_seating<'h, E: 'h, R: Threads + Wait + Clock + Sync>(
    scope: &'h Scope<'h, E>,
    rt: &'h R,
    alloc: Global,
    service: Service,
    door: &'h Door,
) -> Result<(), ServeFault>
    requires side { IsSideAsked service.side }
{
    let Some(queue) = &door.queue else {
        return Ok(());
    };
    let started = scope.spawn(
        move || -> ()
            requires { IsSideAsked service.side }
        { seat_queued(scope, rt, alloc, service, door, queue) },
    );
    if started.is_err() {
        return Err(ServeFault::Thread);
    }
    Ok(())
}

/// Starts the thread that tells the state, where it can be asked for.
fn start_telling<'h, E: 'h, R: Threads + Clock + Sync>(
    scope: &Scope<'h, E>,
    rt: &'h R,
    alloc: Global,
    service: Service,
    door: &'h Door,
) -> Result<(), ServeFault> {
    let Some(asked) = &door.asked else {
        return Ok(());
    };
    let started = scope.spawn(move || tell_all(rt, alloc, service, door, asked));
    if started.is_err() {
        return Err(ServeFault::Thread);
    }
    Ok(())
}

/// Starts the threads beside the one that accepts.
pub(crate) fn start_beside<'h, E: 'h, R: Threads + Wait + Clock + Sync>(
    scope: &'h Scope<'h, E>,
    rt: &'h R,
    alloc: Global,
    service: Service,
    door: &'h Door,
) -> Result<(), ServeFault>
    requires side { IsSideAsked service.side }
{
    start_seating(scope, rt, alloc, service, door)?;
    start_telling(scope, rt, alloc, service, door)
}

/// Starts a thread that accepts.
pub(crate) fn start_accepting<'h, E: 'h, R: Threads + Wait + Clock + Sync>(
    scope: &'h Scope<'h, E>,
    rt: &'h R,
    alloc: Global,
    service: Service,
    door: &'h Door,
) -> Result<(), ServeFault>
    requires side { IsSideAsked service.side }
{
    let started = scope.spawn(
        move || -> ()
            requires { IsSideAsked service.side }
        { accept_all(scope, rt, alloc, service, door) },
    );
    if started.is_err() {
        return Err(ServeFault::Thread);
    }
    Ok(())
}

/// Ends each wait at a listener: the system ends all that wait at a socket that is shut down; std's listener has no such call, but
/// its descriptor has.
fn ring(listener: TcpListener) {
    let _closed = TcpStream::from(OwnedFd::from(listener)).shutdown(Shutdown::Both);
}

/// Has no more connections accepted, and ends each wait for one.
pub(crate) fn close<R: Wait>(rt: &R, door: &Door, bell: Bell) {
    door.is_over.store(true, Ordering::SeqCst);
    if let Some(queue) = &door.queue {
        queue.close(rt);
    }
    ring(bell.listener);
    if let Some(asked) = bell.asked {
        ring(asked);
    }
}

/// Waits until the sessions have ended, but no longer than the seconds of grace, and ends those that are left.
pub(crate) fn end_sessions<R: Wait + Clock>(rt: &R, door: &Door, grace: u32) {
    door.seats.wait_for_all(rt, grace);
    door.guests.cut(rt);
}
