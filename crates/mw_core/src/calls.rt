//! Session calls: each is one event.

ghost use Rattle.std.specs.Prelude.{◌≡◌, ◌≢◌, ◌⊎◌, ◌++◌, ◌∷◌, [], ℕ, true, false, OnErr, IfOk, IsOk, Ok, None};

use crate::machine::Core;
use mw_core_ledger::{Counts, Entry, Ledger, planned};
use mw_core_refusals::element::Element;
use mw_core_refusals::pixel::Image;
use mw_model::{Call, Code, Given, LogItem, Name, NoMemory, Op, Outcome, Reply};
use std::alloc::Global;

impl Core {
    ghost use Rattle.std.specs.Result.{ForOk};
    ghost use Rattle.mw_model.specs.Pictures.{IsImage};
    ghost use Rattle.mw_model.specs.Machine.{Machine, start_state};
    ghost use Rattle.mw_model.specs.Lines.{AskElement, AskLoad};
    ghost use Rattle.mw_model.specs.Refusals.{refusal};
    ghost use Rattle.mw_model.specs.Scripts.{refused_unread};
    ghost use Rattle.mw_model.specs.Stands.{StandsFor};
    ghost use Rattle.mw_core_ledger.specs.mw_core_laws.Payloads.{given_image, image_payload, given_element, element_payload};
    ghost use Rattle.mw_core_refusals.specs.Faults.{IsFault};
    ghost use Rattle.mw_core_ledger.specs.Short.{is_long};
    ghost use Rattle.mw_core_ledger.specs.mw_core_laws.Events.{FollowsMachine, IsFresh};
    ghost use Rattle.mw_core_ledger.specs.mw_core_laws.Rows.{IsLogFull};

    /// A core that has accepted nothing yet. The side is that of the tiles, in pixels: a multiple of 64 from 64 to 1024. With any
    /// other number, such as 0, the tiles of each command have a side that suits its elements.
    pub fn new(alloc: Global, side: u32) -> Result<Self, NoMemory>
        ensures stands { IfOk result (λ c. StandsFor c start_state) }
        ensures log { IfOk result (λ c. c.log ≡ []) }
        ensures side { IfOk result (λ c. c.side ≡ side) }
    {
        Ok(Core {
            ledger: Ledger::new(alloc, side)?,
            counts: Counts::new(alloc)?,
            alloc,
        })
    }

    /// A payload that holds nothing.
    fn fault(&mut self, call: Call, name: Name, code: Code) -> Result<Reply, NoMemory>
        requires short { (c : Code) → is_long (LogItem.Call call (Reply.Refused c)) ≡ false }
        ensures told { IfOk result (λ r. IsFault self.old.table name code r) }
        ensures ok { IfOk result (λ r. self.new ≡ record self.old { log = self.old.log ++ LogItem.Call call r ∷ [] }) }
        ensures err { OnErr result (self.new ≡ self.old) }
        ensures first { OnErr result (IsLogFull self.old ⊎ (refused_unread self.old.table (AskLoad name []) ≡ None)) }
        ensures side { self.new.side ≡ self.old.side }
    {
        match mw_core_refusals::of_given(self.ledger.store(), name, Given::Bad(code)) {
            Err(Code::Memory) => Err(NoMemory),
            Err(code) => self.note(call, Reply::Refused(code)),
            Ok(()) => unreachable!(),
        }
    }

    fn load_image(&mut self, name: Name, image: Image) -> Result<Reply, NoMemory>
        requires { IsImage image }
        ensures served { IfOk result (FollowsMachine self.old (Call.Load name (given_image (Ok image))) (image_payload (Ok image)) self.new) }
        ensures memory { IfOk result (λ r. r ≢ Reply.Refused Code.Memory) }
        ensures err { OnErr result (self.new ≡ self.old) }
        ensures first { OnErr result (IsLogFull self.old ⊎ (refused_unread self.old.table (AskLoad name []) ≡ None)) }
        ensures side { self.new.side ≡ self.old.side }
    {
        self.whole();
        let given = Given::Good(image.shape());
        let call = Call::Load(name, given);
        match mw_core_refusals::of_given(self.ledger.store(), name, given) {
            Err(code) => self.note(call, Reply::Refused(code)),
            Ok(()) => self.accept(call, name, Entry::Image(image), None),
        }
    }

    /// LOAD. An image whose memory was refused is answered so only where nothing else refuses the call. Where another refusal
    /// stands before the payload's, memory is wanting only where the log is full.
    pub fn load(&mut self, name: Name, image: Result<Image, Code>) -> Result<Reply, NoMemory>
        requires { ForOk image IsImage }
        ensures served { IfOk result (FollowsMachine self.old (Call.Load name (given_image image)) (image_payload image) self.new) }
        ensures memory { IfOk result (λ r. r ≢ Reply.Refused Code.Memory) }
        ensures err { OnErr result (self.new ≡ self.old) }
        ensures first { OnErr result (IsLogFull self.old ⊎ (refused_unread self.old.table (AskLoad name []) ≡ None)) }
        ensures side { self.new.side ≡ self.old.side }
    {
        match image {
            Ok(image) => self.load_image(name, image),
            Err(code) => self.fault(Call::Load(name, Given::Bad(code)), name, code),
        }
    }

    fn load_element(&mut self, name: Name, element: Element) -> Result<Reply, NoMemory>
        ensures served { IfOk result (FollowsMachine self.old (Call.Element name (given_element (Ok element))) (element_payload (Ok element)) self.new) }
        ensures memory { IfOk result (λ r. r ≢ Reply.Refused Code.Memory) }
        ensures err { OnErr result (self.new ≡ self.old) }
        ensures first { OnErr result (IsLogFull self.old ⊎ (refused_unread self.old.table (AskElement name 0 0 []) ≡ None)) }
        ensures side { self.new.side ≡ self.old.side }
    {
        self.whole();
        let _offsets = element.offsets();
        let given = Given::Good(element.shape());
        let call = Call::Element(name, given);
        match mw_core_refusals::of_given(self.ledger.store(), name, given) {
            Err(code) => self.note(call, Reply::Refused(code)),
            Ok(()) => self.accept(call, name, Entry::Element(element), None),
        }
    }

    /// ELEMENT. An element whose memory was refused is answered so only where nothing else refuses the call. Where another
    /// refusal stands before the payload's, memory is wanting only where the log is full.
    pub fn element(&mut self, name: Name, element: Result<Element, Code>) -> Result<Reply, NoMemory>
        ensures served { IfOk result (FollowsMachine self.old (Call.Element name (given_element element)) (element_payload element) self.new) }
        ensures memory { IfOk result (λ r. r ≢ Reply.Refused Code.Memory) }
        ensures err { OnErr result (self.new ≡ self.old) }
        ensures first { OnErr result (IsLogFull self.old ⊎ (refused_unread self.old.table (AskElement name 0 0 []) ≡ None)) }
        ensures side { self.new.side ≡ self.old.side }
    {
        match element {
            Ok(element) => self.load_element(name, element),
            Err(code) => self.fault(Call::Element(name, Given::Bad(code)), name, code),
        }
    }

    /// RUN. Where a command is accepted, its plan, its tasks and the places of its planes are there.
    pub fn run(&mut self, name: Name, op: Op) -> Result<Reply, NoMemory>
        ensures served { IfOk result (FollowsMachine self.old (Call.Run name op) None self.new) }
        ensures fresh { (t : ℕ) → IfOk result (λ r. r ≡ Reply.Accepted t → IsFresh self.new t) }
        ensures err { OnErr result (self.new ≡ self.old) }
        ensures side { self.new.side ≡ self.old.side }
    {
        self.whole();
        let call = Call::Run(name, op);
        match mw_core_refusals::of_run(self.ledger.store(), name, op) {
            Err(code) => self.note(call, Reply::Refused(code)),
            Ok(found) => {
                let (store, side) = (self.ledger.store(), self.ledger.side());
                let submission = found.submission;
                let progress = planned(self.alloc, store, side, name, op, found)?;
                self.accept(call, name, Entry::Run(submission), Some(progress))
            }
        }
    }

    /// STATUS. Memory is wanting only where the log is full.
    pub fn status(&mut self, name: Name) -> Result<Reply, NoMemory>
        ensures served { IfOk result (FollowsMachine self.old (Call.Status name) None self.new) }
        ensures err { OnErr result (self.new ≡ self.old) }
        ensures full { OnErr result (IsLogFull self.old) }
        ensures side { self.new.side ≡ self.old.side }
    {
        let reply = mw_core_refusals::status_reply(self.ledger.store(), name);
        self.note(Call::Status(name), reply)
    }

    /// CANCEL. That of a pending name takes no memory; of another, memory is wanting only where the log is full.
    pub fn cancel(&mut self, name: Name) -> Result<Reply, NoMemory>
        ensures served { IfOk result (FollowsMachine self.old (Call.Cancel name) None self.new) }
        ensures err { OnErr result (self.new ≡ self.old) }
        ensures full { OnErr result (IsLogFull self.old) }
        ensures side { self.new.side ≡ self.old.side }
        ensures succeeds { (m : Machine) → StandsFor self.old m → refusal m.table m.payloads (Call.Cancel name) ≡ None → IsOk result }
    {
        self.whole();
        let call = Call::Cancel(name);
        match mw_core_refusals::of_cancel(self.ledger.store(), name) {
            Err(code) => self.note(call, Reply::Refused(code)),
            Ok(t) => {
                let reply = Reply::Accepted(t);
                self.end(t, Outcome::Cancelled, LogItem::Call(call, reply));
                Ok(reply)
            }
        }
    }

    /// RELEASE. Memory is wanting only where the log is full.
    pub fn release(&mut self, name: Name) -> Result<Reply, NoMemory>
        ensures served { IfOk result (FollowsMachine self.old (Call.Release name) None self.new) }
        ensures err { OnErr result (self.new ≡ self.old) }
        ensures full { OnErr result (IsLogFull self.old) }
        ensures side { self.new.side ≡ self.old.side }
    {
        self.whole();
        let call = Call::Release(name);
        match mw_core_refusals::of_release(self.ledger.store(), name) {
            Err(code) => self.note(call, Reply::Refused(code)),
            Ok(t) => {
                let reply = Reply::Accepted(t);
                self.let_go(t, LogItem::Call(call, reply))?;
                Ok(reply)
            }
        }
    }
}
