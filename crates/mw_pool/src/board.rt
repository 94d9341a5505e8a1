//! The board: a core behind a lock, for sessions and workers in threads.

ghost use Rattle.std.specs.Prelude.{◌≡◌, ◌↔◌, [], true, IfOk, IfSome, OnErr, IsTrue, IsSome};

use crate::kept::{Exchange, LockedState};
use crate::roll::{Front, Naming, NewRoll};
use crate::signals::{Signals, Sleepers};
use crossbeam_utils::Backoff;
use mw_model::{Name, NoMemory, Op, Reply};
use mw_pool_passes::task::{TaskRefused, TileDone, Work};
use mw_pool_passes::{Core, Fetched, Pass, Started};
use mw_session_laws::{read_element, read_image};
use std::alloc::Global;
use std::sync::{Condvar, Mutex, MutexGuard, Wait};

/// How often a thread looks for the lock before it sleeps. The first seven pauses take some microseconds in all; behind each other look
/// other threads may run.
const LOOKS: u32 = 40;

// Who looks on and on takes a processor from those that compute.
const _: () = prove!(LOOKS <= 64);

/// A core that threads share. Its parameter names the roll of the tasks that it hands out.
#[derive(Drop)]
pub struct Board<J: Naming> {
    kept: Mutex<LockedState<J>>,
    /// Workers sleep here until a task is ready.
    ready: Condvar,
    /// Sessions sleep here, each by the ticket that it waits for, until an entry is settled.
    settled: Signals,
    alloc: Global,
}

/// A session call reads its payload without the lock. Then it is one call of the pass, in one hold of the lock. No contract
/// says what the core was at that moment: what is known is the receipt.
impl<J: Naming> Board<J> {
    ghost use Rattle.std.specs.List.{AllByRecursion};
    ghost use Rattle.mw_model.specs.declared.calls.Given.{Given};
    ghost use Rattle.mw_model.specs.declared.calls.Call.TheVariants as call;
    ghost use Rattle.mw_model.specs.Machine.{Machine};
    ghost use Rattle.mw_model.specs.Stands.{CoreView, StandsFor};
    ghost use Rattle.mw_model.specs.Receipts.{Covers};
    ghost use Rattle.mw_pool_passes.specs.mw_store.Fetches.{ShowsSome, shown_value};
    ghost use Rattle.mw_pool_passes.specs.Passes.{AddsReceipt};
    ghost use Rattle.mw_pool_passes.specs.mw_step_task.WindowTasks.{IsBounded};
    ghost use Rattle.mw_pool.specs.Payloads.{TellsImage, TellsElement};
    ghost use Rattle.mw_pool.specs.Rolls.{EndsWith};

    /// An open board over a core that stands for some state of the machine, as a new one does.
    pub fn new(alloc: Global, core: Core, roll: NewRoll) -> Board<J>
        requires stands { (m : Machine) × StandsFor core m }
        requires named { roll ≡ J.book }
    {
        Board {
            kept: Mutex::new(LockedState::new(core, roll)),
            ready: Condvar::new(),
            settled: Signals::new(),
            alloc,
        }
    }

    /// A pass without receipts.
    pub fn pass(&self) -> Pass
        ensures { result ≡ [] }
    {
        Pass::new(self.alloc)
    }

    /// LOAD of the bytes of a file, which are the board's from then on.
    pub fn load<R: Wait>(
        &self,
        rt: &R,
        pass: &mut Pass,
        name: Name,
        bytes: Vec<u8>,
    ) -> Result<Reply, NoMemory>
        ensures receipt { IfOk result (λ r. (g : Given) × TellsImage bytes.items g × AddsReceipt pass.old pass.new (call.Load name g) r) }
        ensures shows_nothing { IfOk result (λ r. ¬ ShowsSome r) }
        ensures err { OnErr result (pass.new ≡ pass.old) }
    {
        let image = read_image(self.alloc, bytes);
        self.hold(rt).load(pass, name, image)
    }

    /// ELEMENT of the bytes of a plain bitmap, with its origin in this column and row.
    pub fn element<R: Wait>(
        &self,
        rt: &R,
        pass: &mut Pass,
        name: Name,
        origin: (u32, u32),
        bytes: &[u8],
    ) -> Result<Reply, NoMemory>
        ensures receipt { IfOk result (λ r. (g : Given) × TellsElement bytes.now origin.0 origin.1 g × AddsReceipt pass.old pass.new (call.Element name g) r) }
        ensures shows_nothing { IfOk result (λ r. ¬ ShowsSome r) }
        ensures err { OnErr result (pass.new ≡ pass.old) }
    {
        let element = read_element(self.alloc, bytes, origin.0, origin.1);
        self.hold(rt).element(pass, name, element)
    }

    /// RUN. As many sleeping workers are woken as tasks are ready.
    pub fn run<R: Wait>(
        &self,
        rt: &R,
        pass: &mut Pass,
        name: Name,
        op: Op,
    ) -> Result<Reply, NoMemory>
        ensures receipt { IfOk result (λ r. AddsReceipt pass.old pass.new (call.Run name op) r) }
        ensures shows_nothing { IfOk result (λ r. ¬ ShowsSome r) }
        ensures err { OnErr result (pass.new ≡ pass.old) }
    {
        let (reply, wanted) = self.hold(rt).run(pass, name, op);
        self.wake_workers(wanted);
        reply
    }

    /// CANCEL. All sessions that wait look again, since what depends on the entry is settled with it.
    pub fn cancel<R: Wait>(&self, rt: &R, pass: &mut Pass, name: Name) -> Result<Reply, NoMemory>
        ensures receipt { IfOk result (λ r. AddsReceipt pass.old pass.new (call.Cancel name) r) }
        ensures shows_nothing { IfOk result (λ r. ¬ ShowsSome r) }
        ensures err { OnErr result (pass.new ≡ pass.old) }
    {
        let reply = self.hold(rt).cancel(pass, name);
        self.settled.wake_all();
        reply
    }

    /// RELEASE.
    pub fn release<R: Wait>(&self, rt: &R, pass: &mut Pass, name: Name) -> Result<Reply, NoMemory>
        ensures receipt { IfOk result (λ r. AddsReceipt pass.old pass.new (call.Release name) r) }
        ensures shows_nothing { IfOk result (λ r. ¬ ShowsSome r) }
        ensures err { OnErr result (pass.new ≡ pass.old) }
    {
        self.hold(rt).release(pass, name)
    }

    /// STATUS.
    pub fn status<R: Wait>(&self, rt: &R, pass: &mut Pass, name: Name) -> Result<Reply, NoMemory>
        ensures receipt { IfOk result (λ r. AddsReceipt pass.old pass.new (call.Status name) r) }
        ensures shows_nothing { IfOk result (λ r. ¬ ShowsSome r) }
        ensures err { OnErr result (pass.new ≡ pass.old) }
    {
        self.hold(rt).status(pass, name)
    }

    /// STATUS, in the first hold of the lock in which the name has no pending entry or the board is closed.
    pub fn wait<R: Wait>(&self, rt: &R, pass: &mut Pass, name: Name) -> Result<Reply, NoMemory>
        ensures receipt { IfOk result (λ r. AddsReceipt pass.old pass.new (call.Status name) r) }
        ensures shows_nothing { IfOk result (λ r. ¬ ShowsSome r) }
        ensures err { OnErr result (pass.new ≡ pass.old) }
    {
        let mut kept = self.hold(rt);
        // The ticket is looked up in the hold in which the sleep begins, and whoever settles it wakes its class after that.
        for _ in rt.forever() {
            match kept.awaited(name) {
                Some(t) => kept = self.settled.of(t).wait(rt, kept),
                None => return kept.end_wait(pass, name),
            }
        }
        unreachable!()
    }

    /// FETCH. A value is handed out exactly where the reply is `Shown`.
    pub fn fetch<R: Wait>(&self, rt: &R, pass: &mut Pass, name: Name) -> Result<Fetched, NoMemory>
        ensures receipt { IfOk result (λ f. AddsReceipt pass.old pass.new (call.Fetch name) f.reply) }
        ensures shown { IfOk result (λ f. IsSome (shown_value f.value) ↔ ShowsSome f.reply) }
        ensures err { OnErr result (pass.new ≡ pass.old) }
    {
        self.hold(rt).fetch(pass, name)
    }

    /// Workers take no task any more, and no session waits.
    pub fn close<R: Wait>(&self, rt: &R) {
        self.hold(rt).closed = true;
        self.ready.notify_all();
        self.settled.wake_all();
    }

    /// Whether the passes cover the log. Then there is a state of the machine whose run has all their calls, each once, and
    /// those of each pass in the pass's order.
    pub fn audit_all<R: Wait>(&self, rt: &R, passes: &[Pass]) -> bool
        ensures { IsTrue result → (core : CoreView) × ∥ ((m : Machine) × StandsFor core m) ∥₁ × Covers core.log passes.now }
    {
        self.hold(rt).audit(passes)
    }

    /// The lock. A hold mostly ends before a thread could fall asleep and be woken. So one that finds the lock taken looks again and
    /// again first, with growing pauses, and then lets others run in between.
    fn hold<R: Wait>(&self, rt: &R) -> MutexGuard<'_, LockedState<J>> {
        let pauses = Backoff::new();
        for _ in 0..LOOKS {
            if let Some(kept) = self.kept.try_lock() {
                return kept;
            }
            pauses.snooze();
        }
        self.kept.lock(rt)
    }

    fn wake_workers(&self, wanted: u64) {
        for _ in 0..wanted {
            self.ready.notify_one();
        }
    }

    /// A task to compute, with what was seen of the roll up to it, or none once the board is closed. Sleeps while nothing is
    /// ready.
    pub(crate) fn take<R: Wait>(&self, rt: &R) -> Option<(Work, Option<Front<J>>)>
        ensures bounded { IfSome result (λ r. AllByRecursion IsBounded r.0.windows) }
        ensures slip { IfSome result (λ r. IfSome r.1 (λ seen. EndsWith seen r.0)) }
    {
        for _ in rt.forever() {
            let mut kept = self.hold(rt);
            let (started, slip) = kept.next()?;
            self.settled.wake(Sleepers::of_start(&started));
            match started {
                Started::Work(work) => return Some((work, slip)),
                Started::Refused(_) => {}
                Started::Idle => self.sleep(rt, kept),
            }
        }
        None
    }

    /// Sleeps until a task may be ready.
    fn sleep<'b, R: Wait>(&'b self, rt: &R, mut kept: MutexGuard<'b, LockedState<J>>) {
        kept.asleep = kept.asleep.saturating_add(1);
        let mut kept = self.ready.wait(rt, kept);
        kept.asleep = kept.asleep.saturating_sub(1);
    }

    /// A worker brings a result, with what it saw of the roll up to its task, and takes a ready task in the same hold of the lock, as
    /// `take` does. The other ready tasks wake sleeping workers. Where the result was the last of its ticket, that ticket alone is
    /// settled, and sessions that wait for it look again.
    pub(crate) fn exchange<R: Wait>(
        &self,
        rt: &R,
        done: TileDone,
        slip: &Option<Front<J>>,
    ) -> Option<(Work, Option<Front<J>>)>
        requires bounded { AllByRecursion IsBounded done.windows }
        requires slip { IfSome slip.now (λ seen. EndsWith seen done) }
        ensures bounded { IfSome result (λ r. AllByRecursion IsBounded r.0.windows) }
        ensures slip { IfSome result (λ r. IfSome r.1 (λ seen. EndsWith seen r.0)) }
    {
        let Exchange {
            answer,
            next,
            wanted,
        } = self.hold(rt).exchange(done, slip);
        self.settled.wake(Sleepers::of_finish(&answer));
        self.wake_workers(wanted);
        let (started, next_slip) = next?;
        self.settled.wake(Sleepers::of_start(&started));
        match started {
            Started::Work(work) => Some((work, next_slip)),
            _ => self.take(rt),
        }
    }

    /// A worker found no memory for a task. Where its ticket is killed, all sessions that wait look again: what depends on
    /// it is settled with it.
    pub(crate) fn refuse<R: Wait>(&self, rt: &R, refused: TaskRefused) {
        let answer = self.hold(rt).refuse(refused);
        self.settled.wake(Sleepers::of_refusal(&answer));
    }
}
