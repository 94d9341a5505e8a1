//! The threads of a server: its workers, and one for each connection.

ghost use Rattle.std.specs.Prelude.{All, IfOk};

use crate::fault::ListenFault;
use crate::session::{Leaving, Session};
use mw_pool_session::{Board, Gate, Naming, Pass, work};
use std::alloc::{AllocError, Global};
use std::marker::PhantomData;
use std::net::TcpListener;
use std::sync::Wait;
use std::thread;
use std::thread::{PromisedHandle, Scope, Threads};

/// What all threads of a server share.
pub(crate) struct ServerThreads<'h, R, G, S, J: Naming> {
    pub rt: &'h R,
    pub alloc: Global,
    pub board: &'h Board<J>,
    pub gate: &'h G,
    pub session: &'h S,
    pub idle: Option<u32>,
}

impl<R, G, S, J: Naming> Copy for ServerThreads<'_, R, G, S, J> {}

impl<R, G, S, J: Naming> Clone for ServerThreads<'_, R, G, S, J> {
    ghost use Rattle.std.specs.Prelude.{◌≡◌, ⊤};

    ghost is_clone = { λ x y. y ≡ x };

    ghost is_infallible = { λ _. ⊤ };

    fn clone(&self) -> Result<Self, AllocError> {
        Ok(*self)
    }
}

/// The thread of a session.
type Guest<S> = PromisedHandle<Pass, Leaving<S>>;

/// The passes that sessions left. A scope gives what its threads leave by its type alone.
#[derive(Drop)]
struct LeftPasses<S: Session> {
    passes: Vec<Pass>,
    of: PhantomData<S>,
    ghost left: { ∥ All S.left passes.items ∥₁ },
}

/// Starts so many workers.
fn start_workers<'h, E: 'h, R: Wait + Sync, G: Gate + Sync, S, J: Naming + Send + Sync>(
    scope: &Scope<'h, E>,
    hall: ServerThreads<'h, R, G, S, J>,
    workers: usize,
) -> Result<(), ListenFault> {
    let (rt, board, gate) = (hall.rt, hall.board, hall.gate);
    for _ in 0..workers {
        if scope.spawn(move || work(rt, board, gate)).is_err() {
            return Err(ListenFault::Thread);
        }
    }
    Ok(())
}

/// Accepts so many connections and starts a thread for each. The first fault ends the accepting.
fn accept_all<'h, E: 'h, R: Wait + Sync, G: Sync, S: Session + Sync, J: Naming + Send + Sync>(
    scope: &Scope<'h, E>,
    hall: ServerThreads<'h, R, G, S, J>,
    listener: &TcpListener,
    sessions: usize,
    guests: &mut Vec<Guest<S>>,
) -> Result<(), ListenFault> {
    let (rt, alloc, board, session, idle) = (
        hall.rt,
        hall.alloc,
        hall.board,
        hall.session,
        hall.idle,
    );
    for _ in 0..sessions {
        let Ok((stream, _)) = listener.accept() else {
            return Err(ListenFault::Socket);
        };
        let served = move || session.run(rt, alloc, board, stream, idle);
        let Ok(guest) = scope.spawn_with(Leaving::<S>::new(), served) else {
            return Err(ListenFault::Thread);
        };
        if guests.push(guest).is_err() {
            return Err(ListenFault::Memory);
        }
    }
    Ok(())
}

/// Joins all of them, and gives the passes that they left.
fn join_all<R: Threads, S: Session>(
    rt: &R,
    guests: Vec<Guest<S>>,
    mut passes: Vec<Pass>,
) -> Result<Vec<Pass>, ListenFault>
    requires left { All S.left passes.items }
    ensures left { IfOk result (λ all. All S.left all.items) }
{
    let mut kept = true;
    for guest in guests {
        if passes.push(guest.join(rt)).is_err() {
            kept = false;
        }
    }
    if kept {
        Ok(passes)
    } else {
        Err(ListenFault::Memory)
    }
}

/// Serves so many sessions beside so many workers, and gives the passes that they left. All sessions that were
/// started are joined, whatever fails, and then the board is closed, so that the workers end.
fn serve_within<
    'h,
    E: 'h,
    R: Threads + Wait + Sync,
    G: Gate + Sync,
    S: Session + Sync,
    J: Naming + Send + Sync,
>(
    scope: &Scope<'h, E>,
    hall: ServerThreads<'h, R, G, S, J>,
    listener: &TcpListener,
    workers: usize,
    sessions: usize,
) -> Result<LeftPasses<S>, ListenFault> {
    let Ok(mut guests) = Vec::with_capacity(hall.alloc, sessions) else {
        return Err(ListenFault::Memory);
    };
    let Ok(passes) = Vec::with_capacity(hall.alloc, sessions) else {
        return Err(ListenFault::Memory);
    };
    let accepted = match start_workers(scope, hall, workers) {
        Ok(()) => accept_all(scope, hall, listener, sessions, &mut guests),
        Err(fault) => Err(fault),
    };
    let joined = join_all::<R, S>(hall.rt, guests, passes);
    hall.board.close(hall.rt);
    accepted?;
    Ok(LeftPasses {
        passes: joined?,
        of: PhantomData,
    })
}

/// `serve_within`, in threads that are all joined when it returns.
pub(crate) fn serve_sessions<
    R: Threads + Wait + Sync,
    G: Gate + Sync,
    S: Session + Sync,
    J: Naming + Send + Sync,
>(
    hall: ServerThreads<'_, R, G, S, J>,
    listener: &TcpListener,
    workers: usize,
    sessions: usize,
) -> Result<Vec<Pass>, ListenFault>
    ensures left { IfOk result (λ all. ∥ All S.left all.items ∥₁) }
{
    let left = thread::scope(thread::scope_env(), hall.rt, |scope| {
        serve_within(scope, hall, listener, workers, sessions)
    })?;
    let LeftPasses { passes, of: _ } = left;
    Ok(passes)
}
