//! One connection of a server: who serves it, and what is left of it.

ghost use Rattle.std.specs.Prelude.{◌≡◌, false};
ghost use Rattle.mw_pool_session.specs.Serving.{ServedWhole};
ghost use Rattle.mw_pool_session.specs.mw_wire.Failures.{IsUnread};
ghost use Rattle.mw_server_listen.specs.Listening.{IsOfSession};

use mw_model::Code;
use mw_pool_session::wire::{Sink, Source, end_by};
use mw_pool_session::{Board, Naming, Pass, serve};
use mw_server_socket::bound;
use std::alloc::Global;
use std::io::{BufWriter, Read, Write};
use std::marker::PhantomData;
use std::net::{Shutdown, TcpStream};
use std::sync::Wait;
use std::thread::Promise;

/// Serves a connection, and leaves the receipts of its calls.
pub trait Session {
    ghost use Rattle.std.specs.Prelude.{List};
    ghost use Rattle.mw_model.specs.declared.receipts.Receipt.{Receipt};

    /// What is known of a pass that a session has left. A server knows no more of it, so no other pass can stand in for one.
    ghost left: { List Receipt → Type 0 };

    /// One session, to its end. A wait for its client takes so many seconds at most, if a number is given.
    fn run<R: Wait, J: Naming>(
        &self,
        rt: &R,
        alloc: Global,
        board: &Board<J>,
        stream: TcpStream,
        idle: Option<u32>,
    ) -> Pass
        ensures { Self.left result };
}

/// What the thread of a session promises of its pass.
#[derive(Drop)]
pub(crate) struct Leaving<S> {
    of: PhantomData<S>,
}

impl<S> Leaving<S> {
    pub fn new() -> Leaving<S> {
        Leaving { of: PhantomData }
    }
}

impl<S: Session> Promise<Pass> for Leaving<S> {
    ghost kept_by = { λ _ pass. S.left pass };
}

/// Sessions whose requests are read of their connections.
#[derive(Clone, Copy, Drop)]
pub struct Requests;

/// How many bytes of replies may wait for those behind them, so that they go out in one write.
const HELD: usize = 65536;

/// One session with a pass of its own, from its first request on.
fn serve_whole<R: Read, W: Write, X: Wait, J: Naming>(
    rt: &X,
    alloc: Global,
    source: &mut Source<R>,
    sink: &mut Sink<W>,
    board: &Board<J>,
) -> Pass
    requires source_fresh { IsUnread source.old.failed source.old.reads }
    requires sink_clear { sink.old.failed ≡ false }
    ensures { ServedWhole result (R.remaining source.old.inner) (R.remaining source.new.inner) (W.contents sink.old.inner) (W.contents sink.new.inner) }
{
    let mut pass = board.pass();
    let _end = serve(rt, alloc, source, sink, board, &mut pass);
    pass
}

impl Session for Requests {
    ghost left = { IsOfSession };

    /// A fault of its wire ends this session alone.
    #[tactic(auto, using(crate::proofs::SessionPasses::unread_is_of_session, crate::proofs::SessionPasses::served_is_of_session))]
    fn run<R: Wait, J: Naming>(
        &self,
        rt: &R,
        alloc: Global,
        board: &Board<J>,
        stream: TcpStream,
        idle: Option<u32>,
    ) -> Pass {
        if !bound(&stream, idle) {
            return board.pass();
        }
        // Without this, a short reply would wait until what was sent before it is acknowledged.
        let _quick = stream.set_nodelay(true);
        let Ok(writer) = BufWriter::with_capacity(alloc, HELD, &stream) else {
            let _end = end_by(&mut Sink::new(&stream), Code::Memory);
            return board.pass();
        };
        let mut source = Source::new(&stream);
        let mut sink = Sink::new(writer);
        let pass = serve_whole(rt, alloc, &mut source, &mut sink, board);
        if idle.is_some() && sink.failed() {
            // Else the writer, which holds replies still, would wait for its client once more where it is dropped.
            let _closed = stream.shutdown(Shutdown::Both);
        }
        pass
    }
}
