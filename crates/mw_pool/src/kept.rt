//! What the lock of a board keeps.

ghost use Rattle.std.specs.Prelude.{◌≡◌, ◌≢◌, ◌↔◌, [], min, ℕ, true, false, length, IfOk, IfSome, OnErr, IsTrue, IsSome, None, Some};
ghost use Rattle.mw_model.specs.Machine.{Machine};
ghost use Rattle.mw_model.specs.Stands.{CoreView, StandsFor, ready_count};
ghost use Rattle.mw_pool.specs.Handed.{AreHanded};

use crate::roll::{Front, Naming, NewRoll, Roll};
use crate::tickets::awaited_ticket;
use mw_model::{Code, Name, NoMemory, Op, Reply};
use mw_pool_passes::element::Element;
use mw_pool_passes::pixel::Image;
use mw_pool_passes::task::{TaskRefused, TileDone};
use mw_pool_passes::{Core, Fetched, Finish, Pass, Refusal, Started, audit};

/// What comes of a result in one hold of the lock: the answer to it, what its worker takes next, with what is then seen of the
/// roll, or none of a closed board, and how many sleeping workers have something to do.
#[derive(Drop)]
pub(crate) struct Exchange<J: Naming> {
    pub answer: Finish,
    pub next: Option<(Started, Option<Front<J>>)>,
    pub wanted: u64,
}

/// A core that stands for some state of the machine: so its log is a run of the machine of one thread that ends in that
/// state, and each logged reply is that machine's. And each task of the roll is the core's own, as long as it is running. It
/// is so whenever the lock is free.
#[derive(Drop)]
pub(crate) struct LockedState<J: Naming> {
    pub core: Core,
    /// No worker takes a task any more, and no session waits.
    pub closed: bool,
    /// How many workers sleep.
    pub asleep: u64,
    /// The tasks that were handed out.
    pub roll: Roll<J>,
    pub ghost stands: { ∥ ((m : Machine) × StandsFor core m) ∥₁ },
    pub ghost handed: { AreHanded core roll },
}

/// Each of these is one event of the core, or none.
impl<J: Naming> LockedState<J> {
    ghost use Rattle.std.specs.Result.{ForOk};
    ghost use Rattle.std.specs.List.{AllByRecursion};
    ghost use Rattle.mw_model.specs.Pictures.{IsImage};
    ghost use Rattle.mw_model.specs.declared.calls.Call.TheVariants as call;
    ghost use Rattle.mw_model.specs.Receipts.{Covers};
    ghost use Rattle.mw_model.specs.Refusals.{ticket_of};
    ghost use Rattle.mw_pool_passes.specs.mw_core_laws.Payloads.{given_image, image_payload, given_element, element_payload};
    ghost use Rattle.mw_pool_passes.specs.mw_core_laws.Events.{FollowsMachine};
    ghost use Rattle.mw_pool_passes.specs.mw_step_task.WindowTasks.{IsBounded};
    ghost use Rattle.mw_pool_passes.specs.mw_core.TaskAnswers.{Starts, StartsBounded, AnswersFinish, AnswersRefusal};
    ghost use Rattle.mw_pool_passes.specs.mw_store.Fetches.{ShowsSome, shown_value};
    ghost use Rattle.mw_pool_passes.specs.Passes.{with_receipt};
    ghost use Rattle.mw_pool.specs.Rolls.{EndsWith, IsSlipOf, StandsIn};
    ghost use Rattle.mw_pool.specs.Tickets.{IsAwaited};
    ghost use Rattle.mw_pool.specs.Handed.{Follows};

    /// An open board's, before any worker sleeps.
    pub fn new(core: Core, roll: NewRoll) -> LockedState<J>
        requires stands { (m : Machine) × StandsFor core m }
        requires named { roll ≡ J.book }
        ensures core { result.core ≡ core }
        ensures open_still { result.closed ≡ false }
    {
        LockedState {
            core,
            closed: false,
            asleep: 0,
            roll: Roll::new(roll),
        }
    }

    pub fn load(
        &mut self,
        pass: &mut Pass,
        name: Name,
        image: Result<Image, Code>,
    ) -> Result<Reply, NoMemory>
        requires { ForOk image IsImage }
        ensures served { IfOk result (FollowsMachine self.old.core (call.Load name (given_image image)) (image_payload image) self.new.core) }
        ensures shows_nothing { IfOk result (λ r. ¬ ShowsSome r) }
        ensures receipt { IfOk result (λ r. pass.new ≡ with_receipt pass.old (length self.old.core.log) (call.Load name (given_image image)) r) }
        ensures core_stays { OnErr result (self.new.core ≡ self.old.core) }
        ensures pass_stays { OnErr result (pass.new ≡ pass.old) }
        ensures rest { (self.new.closed ≡ self.old.closed) × (self.new.asleep ≡ self.old.asleep) }
    {
        pass.load(&mut self.core, name, image)
    }

    pub fn element(
        &mut self,
        pass: &mut Pass,
        name: Name,
        element: Result<Element, Code>,
    ) -> Result<Reply, NoMemory>
        ensures served { IfOk result (FollowsMachine self.old.core (call.Element name (given_element element)) (element_payload element) self.new.core) }
        ensures shows_nothing { IfOk result (λ r. ¬ ShowsSome r) }
        ensures receipt { IfOk result (λ r. pass.new ≡ with_receipt pass.old (length self.old.core.log) (call.Element name (given_element element)) r) }
        ensures core_stays { OnErr result (self.new.core ≡ self.old.core) }
        ensures pass_stays { OnErr result (pass.new ≡ pass.old) }
        ensures rest { (self.new.closed ≡ self.old.closed) × (self.new.asleep ≡ self.old.asleep) }
    {
        pass.element(&mut self.core, name, element)
    }

    /// RUN, and how many sleeping workers then have something to do.
    pub fn run(&mut self, pass: &mut Pass, name: Name, op: Op) -> (Result<Reply, NoMemory>, u64)
        ensures served { IfOk result.0 (FollowsMachine self.old.core (call.Run name op) None self.new.core) }
        ensures shows_nothing { IfOk result.0 (λ r. ¬ ShowsSome r) }
        ensures receipt { IfOk result.0 (λ r. pass.new ≡ with_receipt pass.old (length self.old.core.log) (call.Run name op) r) }
        ensures core_stays { OnErr result.0 (self.new.core ≡ self.old.core) }
        ensures pass_stays { OnErr result.0 (pass.new ≡ pass.old) }
        ensures wanted { result.1 ≡ min self.new.asleep (ready_count self.new.core) }
        ensures rest { (self.new.closed ≡ self.old.closed) × (self.new.asleep ≡ self.old.asleep) }
    {
        let reply = pass.run(&mut self.core, name, op);
        (reply, self.wanted_workers())
    }

    pub fn cancel(&mut self, pass: &mut Pass, name: Name) -> Result<Reply, NoMemory>
        ensures served { IfOk result (FollowsMachine self.old.core (call.Cancel name) None self.new.core) }
        ensures shows_nothing { IfOk result (λ r. ¬ ShowsSome r) }
        ensures receipt { IfOk result (λ r. pass.new ≡ with_receipt pass.old (length self.old.core.log) (call.Cancel name) r) }
        ensures core_stays { OnErr result (self.new.core ≡ self.old.core) }
        ensures pass_stays { OnErr result (pass.new ≡ pass.old) }
        ensures rest { (self.new.closed ≡ self.old.closed) × (self.new.asleep ≡ self.old.asleep) }
    {
        pass.cancel(&mut self.core, name)
    }

    pub fn release(&mut self, pass: &mut Pass, name: Name) -> Result<Reply, NoMemory>
        ensures served { IfOk result (FollowsMachine self.old.core (call.Release name) None self.new.core) }
        ensures shows_nothing { IfOk result (λ r. ¬ ShowsSome r) }
        ensures receipt { IfOk result (λ r. pass.new ≡ with_receipt pass.old (length self.old.core.log) (call.Release name) r) }
        ensures core_stays { OnErr result (self.new.core ≡ self.old.core) }
        ensures pass_stays { OnErr result (pass.new ≡ pass.old) }
        ensures rest { (self.new.closed ≡ self.old.closed) × (self.new.asleep ≡ self.old.asleep) }
    {
        pass.release(&mut self.core, name)
    }

    pub fn status(&mut self, pass: &mut Pass, name: Name) -> Result<Reply, NoMemory>
        ensures served { IfOk result (FollowsMachine self.old.core (call.Status name) None self.new.core) }
        ensures shows_nothing { IfOk result (λ r. ¬ ShowsSome r) }
        ensures receipt { IfOk result (λ r. pass.new ≡ with_receipt pass.old (length self.old.core.log) (call.Status name) r) }
        ensures core_stays { OnErr result (self.new.core ≡ self.old.core) }
        ensures pass_stays { OnErr result (pass.new ≡ pass.old) }
        ensures rest { (self.new.closed ≡ self.old.closed) × (self.new.asleep ≡ self.old.asleep) }
    {
        pass.status(&mut self.core, name)
    }

    pub fn fetch(&mut self, pass: &mut Pass, name: Name) -> Result<Fetched, NoMemory>
        ensures served { IfOk result (λ f. FollowsMachine self.old.core (call.Fetch name) None self.new.core f.reply) }
        ensures shown { IfOk result (λ f. IsSome (shown_value f.value) ↔ ShowsSome f.reply) }
        ensures receipt { IfOk result (λ f. pass.new ≡ with_receipt pass.old (length self.old.core.log) (call.Fetch name) f.reply) }
        ensures core_stays { OnErr result (self.new.core ≡ self.old.core) }
        ensures pass_stays { OnErr result (pass.new ≡ pass.old) }
        ensures rest { (self.new.closed ≡ self.old.closed) × (self.new.asleep ≡ self.old.asleep) }
    {
        pass.fetch(&mut self.core, name)
    }

    /// The ticket that who waits for the name waits for: the board is open, and the name's entry is pending.
    pub fn awaited(&self, name: Name) -> Option<u32>
        ensures ticket { (m : Machine) → StandsFor self.now.core m → IfSome result (λ t. ticket_of m.table.names name ≡ Some t) }
        ensures awaited { (m : Machine) → StandsFor self.now.core m → IsSome result ↔ ((self.now.closed ≡ false) × IsAwaited m.table name) }
    {
        if self.closed {
            return None;
        }
        awaited_ticket(&self.core, name)
    }

    /// The STATUS that ends a wait. On an open board it never tells that the entry is pending.
    pub fn end_wait(&mut self, pass: &mut Pass, name: Name) -> Result<Reply, NoMemory>
        requires { (m : Machine) → StandsFor self.old.core m → (self.old.closed ≡ false) × IsAwaited m.table name → ⊥ }
        ensures settled { self.old.closed ≡ false → IfOk result (λ r. (t : ℕ) → r ≢ Reply.Pending t) }
        ensures served { IfOk result (FollowsMachine self.old.core (call.Status name) None self.new.core) }
        ensures shows_nothing { IfOk result (λ r. ¬ ShowsSome r) }
        ensures receipt { IfOk result (λ r. pass.new ≡ with_receipt pass.old (length self.old.core.log) (call.Status name) r) }
        ensures core_stays { OnErr result (self.new.core ≡ self.old.core) }
        ensures pass_stays { OnErr result (pass.new ≡ pass.old) }
        ensures rest { (self.new.closed ≡ self.old.closed) × (self.new.asleep ≡ self.old.asleep) }
    {
        pass.status(&mut self.core, name)
    }

    /// The first ready task in ticket order is taken and written into the roll. Beside it is what is then seen of the roll, if
    /// it was written.
    fn start(&mut self) -> (Started, Option<Front<J>>)
        ensures task { (m : Machine) → StandsFor self.old.core m → Starts self.old.core m result.0 self.new.core }
        ensures bounded { StartsBounded result.0 }
        ensures slip { IsSlipOf result.0 result.1 }
        ensures rest { (self.new.closed ≡ self.old.closed) × (self.new.asleep ≡ self.old.asleep) }
    {
        let started = self.core.start(0);
        let slip = self.roll.write(&started);
        (started, slip)
    }

    /// Takes a ready task, as `start` does, if the board is open. Of a closed one none is taken.
    pub fn next(&mut self) -> Option<(Started, Option<Front<J>>)>
        ensures open_still { IsSome result ↔ (self.old.closed ≡ false) }
        ensures task { Follows self.old.core result self.new.core }
        ensures bounded { IfSome result (λ r. StartsBounded r.0) }
        ensures slip { IfSome result (λ r. IsSlipOf r.0 r.1) }
        ensures rest { (self.new.closed ≡ self.old.closed) × (self.new.asleep ≡ self.old.asleep) }
    {
        if !self.closed {
            return Some(self.start());
        }
        None
    }

    /// A result of a task of the roll, which is the core's own: nothing is compared.
    fn finish_own(&mut self, done: TileDone) -> Finish
        requires bounded { AllByRecursion IsBounded done.windows }
        requires handed { StandsIn self.old.roll done }
        ensures task { (m : Machine) → StandsFor self.old.core m → AnswersFinish self.old.core m done result self.new.core }
        ensures rest { (self.new.closed ≡ self.old.closed) × (self.new.asleep ≡ self.old.asleep) }
    {
        self.core.finish_own(done)
    }

    /// A result of any task, which is compared with what the core has.
    fn finish_compared(&mut self, done: TileDone) -> Finish
        ensures task { (m : Machine) → StandsFor self.old.core m → AnswersFinish self.old.core m done result self.new.core }
        ensures rest { (self.new.closed ≡ self.old.closed) × (self.new.asleep ≡ self.old.asleep) }
    {
        self.core.finish(done)
    }

    /// A worker brings a result, with what it saw of the roll when it took the task.
    fn finish(&mut self, done: TileDone, slip: &Option<Front<J>>) -> Finish
        requires bounded { AllByRecursion IsBounded done.windows }
        requires slip { IfSome slip.now (λ seen. EndsWith seen done) }
        ensures task { (m : Machine) → StandsFor self.old.core m → AnswersFinish self.old.core m done result self.new.core }
        ensures rest { (self.new.closed ≡ self.old.closed) × (self.new.asleep ≡ self.old.asleep) }
    {
        if self.roll.has(slip, &done) {
            self.finish_own(done)
        } else {
            self.finish_compared(done)
        }
    }

    /// A worker brings a result, as to `finish`, and then a ready task is taken for this worker, if the board is open. What is ready still is for those that sleep.
    pub fn exchange(&mut self, done: TileDone, slip: &Option<Front<J>>) -> Exchange<J>
        requires bounded { AllByRecursion IsBounded done.windows }
        requires slip { IfSome slip.now (λ seen. EndsWith seen done) }
        ensures open_still { IsSome result.next ↔ (self.old.closed ≡ false) }
        ensures task { (m : Machine) → StandsFor self.old.core m → (between : CoreView) × AnswersFinish self.old.core m done result.answer between × Follows between result.next self.new.core }
        ensures bounded { IfSome result.next (λ r. StartsBounded r.0) }
        ensures slip { IfSome result.next (λ r. IsSlipOf r.0 r.1) }
        ensures wanted { result.wanted ≡ min self.new.asleep (ready_count self.new.core) }
        ensures rest { (self.new.closed ≡ self.old.closed) × (self.new.asleep ≡ self.old.asleep) }
    {
        let answer = self.finish(done, slip);
        let next = self.next();
        let wanted = self.wanted_workers();
        Exchange {
            answer,
            next,
            wanted,
        }
    }

    pub fn refuse(&mut self, refused: TaskRefused) -> Refusal
        ensures task { (m : Machine) → StandsFor self.old.core m → AnswersRefusal self.old.core m refused.task result self.new.core }
        ensures rest { (self.new.closed ≡ self.old.closed) × (self.new.asleep ≡ self.old.asleep) }
    {
        self.core.refuse(refused)
    }

    /// How many sleeping workers have something to do. Tasks are counted only where a worker sleeps.
    fn wanted_workers(&self) -> u64
        ensures { result ≡ min self.now.asleep (ready_count self.now.core) }
    {
        if self.asleep == 0 {
            return 0;
        }
        self.asleep.min(self.core.ready_count())
    }

    /// Whether the passes cover the log.
    pub fn audit(&self, passes: &[Pass]) -> bool
        ensures { IsTrue result ↔ Covers self.now.core.log passes.now }
    {
        audit(&self.core, passes)
    }
}
