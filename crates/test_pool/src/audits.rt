//! What a server says of the passes that its sessions left: `listen_with` is lent sessions that leave other passes than their
//! own.

ghost use Rattle.std.specs.Prelude.{◌≤◌};

use mw_pool::{Board, Naming, Pass};
use mw_server_listen::{Kernels, Requests, Service, Session, Staff, listen_with};
use mw_wire::Sink;
use std::alloc::Global;
use std::io::{Read, Write};
use std::net::{Ipv4Addr, Net, TcpListener, TcpStream};
use std::process::Abort;
use std::sync::atomic::{AtomicU64, Ordering};
use std::sync::{Mutex, Wait};
use std::thread::Threads;
use std::{io, mem, thread};

const SESSIONS: u32 = 3;

/// Of the session with this number, counted from 0 in the order of their ends, a pass without receipts is left. Others leave their
/// own.
#[derive(Drop)]
struct Forgetting {
    number: u64,
    ended: AtomicU64,
}

impl Session for Forgetting {
    ghost use Rattle.std.specs.Prelude.{⊤};

    ghost left = { λ _. ⊤ };

    fn run<R: Wait, J: Naming>(
        &self,
        rt: &R,
        alloc: Global,
        board: &Board<J>,
        stream: TcpStream,
        idle: Option<u32>,
    ) -> Pass {
        let own = Requests.run(rt, alloc, board, stream, idle);
        if self.ended.fetch_add(1, Ordering::SeqCst) == self.number {
            return board.pass();
        }
        own
    }
}

/// Each session leaves the pass of the one before. The first one leaves a pass without receipts.
#[derive(Drop)]
struct Swapping {
    before: Mutex<Option<Pass>>,
}

impl Session for Swapping {
    ghost use Rattle.std.specs.Prelude.{⊤};

    ghost left = { λ _. ⊤ };

    fn run<R: Wait, J: Naming>(
        &self,
        rt: &R,
        alloc: Global,
        board: &Board<J>,
        stream: TcpStream,
        idle: Option<u32>,
    ) -> Pass {
        let own = Requests.run(rt, alloc, board, stream, idle);
        let mut before = self.before.lock(rt);
        match mem::replace(&mut *before, Some(own)) {
            Some(pass) => pass,
            None => board.pass(),
        }
    }
}

/// A connection to the server, which may not listen yet.
fn connect<R: Net<Stream = TcpStream>>(rt: &R, port: u16) -> io::Result<TcpStream> {
    for _ in 0..1_000_000u32 {
        if let Ok(stream) = TcpStream::connect(rt, (Ipv4Addr::LOCALHOST, port)) {
            return Ok(stream);
        }
        thread::yield_now();
    }
    Err(io::Error::from(io::ErrorKind::TimedOut))
}

/// Whether a client with one call is answered.
fn is_answered<R: Net<Stream = TcpStream>>(rt: &R, port: u16) -> io::Result<bool> {
    let stream = connect(rt, port)?;
    let mut wire = &stream;
    wire.write_all(b"STATUS x\nQUIT\n")?;
    let mut heard = [0u8; 15];
    wire.read_exact(&mut heard)?;
    Ok(heard.as_slice() == b"ERR 41 UNKNOWN\n".as_slice())
}

/// How many clients are answered, one after the other.
fn all_call<R: Net<Stream = TcpStream>>(rt: &R, port: u16) -> u32 {
    let mut count = 0u32;
    for _ in 0..SESSIONS {
        if matches!(is_answered(rt, port), Ok(true)) {
            count = count.saturating_add(1);
        }
    }
    count
}

/// The exit status of a server of such sessions, and the faults that it told.
fn audited<
    R: Net<Listener = TcpListener, Stream = TcpStream> + Threads + Wait + Sync,
    S: Session + Sync,
>(rt: &R, alloc: Global, port: u16, session: &S) -> (u8, Vec<u8>)
    requires { 1 ≤ port }
{
    let given = Service {
        port,
        workers: 2,
        sessions: 3,
        side: 128,
        idle: None,
        announce: false,
    };
    let gate = Kernels { alloc };
    let mut output = Sink::new(Vec::new(alloc));
    let mut faults = Sink::new(Vec::new(alloc));
    let staff = Staff {
        gate: &gate,
        session,
    };
    let status = listen_with(rt, alloc, given, &mut output, &mut faults, staff);
    (status, faults.into_inner())
}

/// All clients of such a server are answered. It stops where the exit status of the server or the faults that it told are others.
fn tells<
    R: Net<Listener = TcpListener, Stream = TcpStream> + Threads + Wait + Abort + Sync,
    S: Session + Sync,
>(rt: &R, alloc: Global, port: u16, session: &S, wanted: (u8, &[u8]))
    requires { 1 ≤ port }
{
    let (count, (status, told)) = thread::join(
        rt,
        || all_call(rt, port),
        || -> (u8, Vec<u8>)
            requires { 1 ≤ port }
        { audited(rt, alloc, port, session) },
    );
    assert_eq!(rt; (count, status), (SESSIONS, wanted.0));
    assert_eq!(rt; told.as_slice(), wanted.1);
}

fn who_forgets(number: u64) -> Forgetting {
    Forgetting {
        number,
        ended: AtomicU64::new(0),
    }
}

const FAILED: (u8, &[u8]) = (1, b"error: audit\n");

#[test]
fn a_pass_without_receipts_fails_the_audit(rt: HostRuntime) {
    tells(&rt, rt.alloc(), 7009, &who_forgets(2), FAILED);
}

#[test]
fn the_pass_of_another_session_fails_the_audit(rt: HostRuntime) {
    let swapping = Swapping {
        before: Mutex::new(None),
    };
    tells(&rt, rt.alloc(), 7011, &swapping, FAILED);
}

#[test]
fn all_passes_stand_the_audit(rt: HostRuntime) {
    let all = who_forgets(u64::from(SESSIONS));
    tells(&rt, rt.alloc(), 7012, &all, (0, b""));
}
