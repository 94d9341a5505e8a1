//! A service: its ports, its line, and its end.

ghost use Rattle.std.specs.Prelude.{OnOk, IfOk};
ghost use Rattle.std.specs.Io.KnownBytes.{Appends};
ghost use Rattle.mw_batch.specs.Batches.{IsSideAsked};
ghost use Rattle.mw_server_socket.specs.Announcements.{announcement};
ghost use Rattle.mw_server_serve.specs.Services.{Announces, IsPortFor, Offered, Told};

use crate::connection::HELD;
use crate::door::{Bell, Door, accept_all, close, end_sessions, start_accepting, start_beside};
use crate::fault::ServeFault;
use crate::resident::open_sizes;
use mw_server_socket::wire::{Sink, send};
use mw_server_socket::{PortFault, announce};
use std::alloc::Global;
use std::fs::File;
use std::io::{BufWriter, ErrorKind, Read, Write};
use std::net::{Ipv4Addr, Net, TcpListener, TcpStream};
use std::rt::Files;
use std::sync::Wait;
use std::thread::Threads;
use std::time::Clock;
use std::{io, thread};

/// The port on 127.0.0.1, 0 for one that the system picks; how many workers compute each session, how many sessions are
/// served at once, the side of the tiles, and how many seconds a session waits for its client. Then how many more clients may
/// wait for a session, where that is bounded; how many seconds sessions may go on once the service is to end; how many seconds a
/// session may compute, where that is bounded; at which port it tells its state, if at any; how many MiB one session may take,
/// where that is bounded; and its version.
#[derive(Clone, Copy, Debug, PartialEq, Eq)]
pub struct Service {
    pub port: u16,
    pub workers: usize,
    pub sessions: usize,
    pub side: u32,
    pub idle: Option<u32>,
    pub queue: Option<u32>,
    pub grace: u32,
    pub time: Option<u32>,
    pub status: Option<u16>,
    pub memory: Option<u32>,
    pub version: &'static str,
}

/// A listener, and the port that it listens on.
#[derive(Drop)]
struct Place {
    listener: TcpListener,
    port: u16,
}

/// What a service has before it tells its port.
#[derive(Drop)]
struct Ready {
    door: Door,
    bell: Bell,
}

/// Reads to the end, or until reading fails.
fn wait_for_end<I: Read + Drop>(mut input: I) {
    let mut dropped = [0u8; 4096];
    for _ in 0..u64::MAX {
        match input.read(&mut dropped) {
            Ok(0) => return,
            Err(error) if error.kind() != ErrorKind::Interrupted => return,
            _ => {}
        }
    }
}

/// A listener on this port.
fn listener_at<R: Net<Listener = TcpListener, Stream = TcpStream>>(
    rt: &R,
    port: u16,
) -> Result<TcpListener, PortFault> {
    match TcpListener::bind(rt, (Ipv4Addr::LOCALHOST, port)) {
        Ok(listener) => Ok(listener),
        Err(error) => Err(PortFault::of(&error)),
    }
}

/// Listens on this port, or on one that the system picks where it is 0.
fn listen_on<R: Net<Listener = TcpListener, Stream = TcpStream>>(
    rt: &R,
    asked: u16,
) -> Result<Place, ServeFault>
    ensures { IfOk result (λ p. IsPortFor asked p.port) }
{
    let listener = match listener_at(rt, asked) {
        Ok(listener) => listener,
        Err(fault) => return Err(ServeFault::Port(fault)),
    };
    if asked > 0 {
        return Ok(Place {
            listener,
            port: asked,
        });
    }
    let Ok(address) = listener.local_addr() else {
        return Err(ServeFault::Socket);
    };
    Ok(Place {
        listener,
        port: address.port(),
    })
}

/// A listener on the port of the state, where there is one.
fn listen_for_state<R: Net<Listener = TcpListener, Stream = TcpStream>>(
    rt: &R,
    status: Option<u16>,
) -> Result<Option<TcpListener>, ServeFault> {
    let Some(port) = status else {
        return Ok(None);
    };
    match listener_at(rt, port) {
        Ok(listener) => Ok(Some(listener)),
        Err(fault) => Err(ServeFault::Status(port, fault)),
    }
}

/// A copy of a listener.
fn copy_of(listener: &TcpListener) -> Result<TcpListener, ServeFault> {
    match listener.try_clone() {
        Ok(copy) => Ok(copy),
        Err(_) => Err(ServeFault::Socket),
    }
}

/// Whether a descriptor is left for the connection of a client.
fn can_accept(listener: &TcpListener) -> Result<(), ServeFault> {
    match listener.try_clone() {
        Ok(_spare) => Ok(()),
        Err(_) => Err(ServeFault::Descriptors),
    }
}

/// Makes all that a service needs before it tells its port. How much memory it has is looked up where its state can be asked for.
fn prepare_door<R: Files<File = File>>(
    rt: &R,
    alloc: Global,
    service: Service,
    listener: TcpListener,
    asked: Option<TcpListener>,
) -> Result<Ready, ServeFault> {
    let bell = Bell {
        listener: copy_of(&listener)?,
        asked: match &asked {
            Some(asked) => Some(copy_of(asked)?),
            None => None,
        },
    };
    let sizes = match &asked {
        Some(_) => open_sizes(rt),
        None => None,
    };
    can_accept(&listener)?;
    match Door::new(alloc, service, listener, asked, sizes) {
        Some(door) => Ok(Ready { door, bell }),
        None => Err(ServeFault::Memory),
    }
}

/// Serves in threads that are all joined when it returns: at the end of what it is to read, or never where that is nothing. Who
/// has nothing to read accepts by himself.
fn serve_until<R: Threads + Wait + Clock + Sync, I: Read + Drop>(
    rt: &R,
    alloc: Global,
    service: Service,
    ready: Ready,
    until: Option<I>,
) -> Result<(), ServeFault>
    requires side { IsSideAsked service.side }
{
    let Ready { door, bell } = ready;
    let door = &door;
    thread::scope(
        thread::scope_env(),
        rt,
        |scope| -> Result<(), ServeFault>
            requires { IsSideAsked service.side }
        {
            let mut started = start_beside(scope, rt, alloc, service, door);
            if started.is_ok() {
                let Some(input) = until else {
                    accept_all(scope, rt, alloc, service, door);
                    return Ok(());
                };
                started = start_accepting(scope, rt, alloc, service, door);
                if started.is_ok() {
                    wait_for_end(input);
                }
            }
            close(rt, door, bell);
            end_sessions(rt, door, service.grace);
            started
        },
    )
}

/// Tells the port, and serves.
fn serve_at<
    R: Net<Listener = TcpListener, Stream = TcpStream>
        + Files<File = File>
        + Threads
        + Wait
        + Clock
        + Sync,
    I: Read + Drop,
    O: Write,
>(
    rt: &R,
    alloc: Global,
    service: Service,
    place: Place,
    until: Option<I>,
    output: &mut Sink<O>,
) -> Result<(), ServeFault>
    requires side { IsSideAsked service.side }
    ensures { OnOk result (Appends (O.contents output.old.inner) (O.contents output.new.inner) (announcement place.port)) }
{
    let Place { listener, port } = place;
    let asked = listen_for_state(rt, service.status)?;
    let ready = prepare_door(rt, alloc, service, listener, asked)?;
    if announce(output, port).is_err() {
        return Err(ServeFault::Output);
    }
    serve_until(rt, alloc, service, ready, until)
}

/// Listens, tells the port, and serves.
fn serve_all<
    R: Net<Listener = TcpListener, Stream = TcpStream>
        + Files<File = File>
        + Threads
        + Wait
        + Clock
        + Sync,
    I: Read + Drop,
    O: Write,
>(
    rt: &R,
    alloc: Global,
    service: Service,
    until: Option<I>,
    output: &mut Sink<O>,
) -> Result<(), ServeFault>
    requires side { IsSideAsked service.side }
    ensures { OnOk result (Announces service.port (O.contents output.old.inner) (O.contents output.new.inner)) }
{
    if BufWriter::with_capacity(alloc, HELD, io::sink()).is_err() {
        return Err(ServeFault::Memory);
    }
    let place = listen_on(rt, service.port)?;
    serve_at(rt, alloc, service, place, until, output)
}

/// Listens on 127.0.0.1, tells on which port, and serves one connection after the other, so many at once, each as a batch.
/// Where the queue is bounded, who comes over it is told so, and its connection is closed. It ends when what it is to read has
/// ended, once the sessions that run have ended too, or never where it is to read nothing, and gives the exit status: 0, or 1
/// where the service could not be begun; then the line of that fault goes to `faults`: `error: memory`, `error: output`,
/// `error: thread`, `error: socket`, `error: descriptors`, or the port and why it cannot be listened on. Sessions that have not
/// ended when the seconds of grace are over find that their wires have. A connection that fails ends alone, and is no fault.
pub fn serve<
    R: Net<Listener = TcpListener, Stream = TcpStream>
        + Files<File = File>
        + Threads
        + Wait
        + Clock
        + Sync,
    I: Read + Drop,
    O: Write,
    F: Write,
>(
    rt: &R,
    alloc: Global,
    service: Service,
    until: Option<I>,
    output: &mut Sink<O>,
    faults: &mut Sink<F>,
) -> u8
    requires side { IsSideAsked service.side }
    ensures { let old : Told = record { text = F.contents faults.old.inner; failed = faults.old.failed } in
        let new : Told = record { text = F.contents faults.new.inner; failed = faults.new.failed } in
        Offered service.port (O.contents output.old.inner) (O.contents output.new.inner) old new result }
{
    match serve_all(rt, alloc, service, until, output) {
        Ok(()) => 0,
        Err(fault) => {
            let _told = send(faults, fault.line(service.port).as_bytes());
            1
        }
    }
}
