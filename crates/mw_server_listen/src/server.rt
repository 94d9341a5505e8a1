//! A server: from its port to its exit status.

ghost use Rattle.std.specs.Prelude.{◌⊎◌, ◌≡◌, ◌≤◌, IfOk, OnOk};
ghost use Rattle.mw_grid.specs.Grids.{IsTileSide};
ghost use Rattle.mw_server_listen.specs.Listening.{AnnouncesIf, Audited, IsOfSession, Listened, Told};

use crate::fault::ListenFault;
use crate::hall::{ServerThreads, serve_sessions};
use crate::session::{Requests, Session};
use mw_pool_session::wire::{Sink, send};
use mw_pool_session::{Board, Core, Gate, Naming, NewRoll};
use mw_server_socket::{PortFault, announce};
use std::alloc::Global;
use std::io::Write;
use std::marker::Brand;
use std::net::{Ipv4Addr, Net, TcpListener, TcpStream};
use std::sync::Wait;
use std::thread::Threads;

/// The port on 127.0.0.1, how many workers compute, how many sessions are served, the side of the tiles, how many seconds a
/// session waits for its client, and whether a line tells that connections can be made.
#[derive(Clone, Copy, Debug, PartialEq, Eq)]
pub struct Service {
    pub port: u16,
    pub workers: usize,
    pub sessions: usize,
    pub side: u32,
    pub idle: Option<u32>,
    pub announce: bool,
}

/// What computes tasks, and what serves connections.
#[derive(Drop)]
pub struct Staff<'s, G, S> {
    pub gate: &'s G,
    pub session: &'s S,
}

/// A listener on this port.
fn listener_at<R: Net<Listener = TcpListener, Stream = TcpStream>>(
    rt: &R,
    port: u16,
) -> Result<TcpListener, ListenFault> {
    match TcpListener::bind(rt, (Ipv4Addr::LOCALHOST, port)) {
        Ok(listener) => Ok(listener),
        Err(error) => Err(ListenFault::Port(PortFault::of(&error))),
    }
}

/// Tells where connections can be made, if that is asked for.
fn announce_of<O: Write>(service: Service, output: &mut Sink<O>) -> Result<(), ListenFault>
    ensures { OnOk result (AnnouncesIf service.announce service.port (O.contents output.old.inner) (O.contents output.new.inner)) }
{
    if service.announce && announce(output, service.port).is_err() {
        return Err(ListenFault::Output);
    }
    Ok(())
}

/// Serves the sessions of a service on a board of its own, and audits them.
fn serve_all<
    J: Naming + Send + Sync,
    R: Net<Listener = TcpListener, Stream = TcpStream> + Threads + Wait + Sync,
    O: Write,
    G: Gate + Sync,
    S: Session + Sync,
>(
    rt: &R,
    alloc: Global,
    service: Service,
    output: &mut Sink<O>,
    staff: Staff<'_, G, S>,
    roll: NewRoll,
) -> Result<(), ListenFault>
    requires named { roll ≡ J.book }
    requires side { (service.side ≡ 0) ⊎ IsTileSide service.side }
    ensures audited { IfOk result (λ _. Audited S.left service.sessions) }
    ensures announced { OnOk result (AnnouncesIf service.announce service.port (O.contents output.old.inner) (O.contents output.new.inner)) }
{
    let Ok(core) = Core::new(alloc, service.side) else {
        return Err(ListenFault::Memory);
    };
    let board = Board::<J>::new(alloc, core, roll);
    let listener = listener_at(rt, service.port)?;
    announce_of(service, output)?;
    let hall = ServerThreads {
        rt,
        alloc,
        board: &board,
        gate: staff.gate,
        session: staff.session,
        idle: service.idle,
    };
    let passes = serve_sessions(hall, &listener, service.workers, service.sessions)?;
    // Each of these passes is one that a session has left, and that there is one of each session is looked at here.
    if passes.len() != service.sessions || !board.audit_all(rt, passes.as_slice()) {
        return Err(ListenFault::Audit);
    }
    Ok(())
}

/// `listen`, where others serve the connections. Status 0 says that each session has left its pass, and that these passes
/// cover the log.
pub fn listen_with<
    R: Net<Listener = TcpListener, Stream = TcpStream> + Threads + Wait + Sync,
    O: Write,
    F: Write,
    G: Gate + Sync,
    S: Session + Sync,
>(
    rt: &R,
    alloc: Global,
    service: Service,
    output: &mut Sink<O>,
    faults: &mut Sink<F>,
    staff: Staff<'_, G, S>,
) -> u8
    requires port { 1 ≤ service.port }
    requires workers { (1 ≤ service.workers) × (service.workers ≤ 64) }
    requires sessions { (1 ≤ service.sessions) × (service.sessions ≤ 64) }
    requires side { (service.side ≡ 0) ⊎ IsTileSide service.side }
    ensures audited { let old : Told = record { text = F.contents faults.old.inner; failed = faults.old.failed } in
        let new : Told = record { text = F.contents faults.new.inner; failed = faults.new.failed } in
        Listened S.left service.port service.sessions old new result }
    ensures announced { result ≡ 0 → AnnouncesIf service.announce service.port (O.contents output.old.inner) (O.contents output.new.inner) }
{
    match serve_all::<Brand, R, O, G, S>(rt, alloc, service, output, staff, NewRoll::new()) {
        Ok(()) => 0,
        Err(fault) => {
            let _told = send(faults, fault.line(service.port).as_bytes());
            1
        }
    }
}

/// Listens on 127.0.0.1, serves so many sessions beside so many workers, audits them, and gives the exit status: 0 where
/// all sessions were joined and their passes cover the log, and else 1. The first fault ends the accepting; what runs is
/// joined as before, and the line of that fault alone goes to `faults`: the port and why it cannot be listened on,
/// `error: socket`, `error: thread`, `error: audit`, `error: memory`, or `error: output` where the line that was asked for
/// could not be written. A session whose connection fails, or waits too long for its client, ends alone, and is no fault.
pub fn listen<
    R: Net<Listener = TcpListener, Stream = TcpStream> + Threads + Wait + Sync,
    O: Write,
    F: Write,
    G: Gate + Sync,
>(
    rt: &R,
    alloc: Global,
    service: Service,
    output: &mut Sink<O>,
    faults: &mut Sink<F>,
    gate: &G,
) -> u8
    requires port { 1 ≤ service.port }
    requires workers { (1 ≤ service.workers) × (service.workers ≤ 64) }
    requires sessions { (1 ≤ service.sessions) × (service.sessions ≤ 64) }
    requires side { (service.side ≡ 0) ⊎ IsTileSide service.side }
    ensures audited { let old : Told = record { text = F.contents faults.old.inner; failed = faults.old.failed } in
        let new : Told = record { text = F.contents faults.new.inner; failed = faults.new.failed } in
        Listened IsOfSession service.port service.sessions old new result }
    ensures announced { result ≡ 0 → AnnouncesIf service.announce service.port (O.contents output.old.inner) (O.contents output.new.inner) }
{
    let staff = Staff {
        gate,
        session: &Requests,
    };
    listen_with(rt, alloc, service, output, faults, staff)
}
