//! Passes: what a session keeps of its calls.

ghost use Rattle.std.specs.Prelude.{◌≡◌, ◌≢◌, ◌↔◌, [], ℕ, true, length, IfOk, OnErr, IsSome, None};

use mw_core::element::Element;
use mw_core::pixel::Image;
use mw_core::{Core, Fetched};
use mw_model::{Call, Code, Given, Name, NoMemory, Op, Receipt, Reply};
use std::alloc::Global;
use std::marker::Model;

/// The receipts of one session in the order of its calls: of each call its place in the log, the call and the reply. A
/// pass is tied to no core.
#[derive(Drop)]
pub struct Pass {
    receipts: Vec<Receipt>,
}

impl Model for Pass {
    ghost use Rattle.std.specs.Prelude.{List};
    ghost use Rattle.mw_model.specs.declared.receipts.Receipt.{Receipt};

    ghost Value = { List Receipt };

    ghost view = { λ p. p.receipts.items };
}

/// Each call makes room for its receipt, and then the call of that name of the core: the answer and what changes are
/// those of the core's call. Where no memory is found, pass and core are as before.
impl Pass {
    ghost use Rattle.std.specs.Result.{ForOk};
    ghost use Rattle.mw_model.specs.Pictures.{IsImage};
    ghost use Rattle.mw_model.specs.Machine.{Machine};
    ghost use Rattle.mw_model.specs.Stands.{StandsFor};
    ghost use Rattle.mw_core.specs.mw_core_laws.Payloads.{given_image, image_payload, given_element, element_payload};
    ghost use Rattle.mw_core.specs.mw_core_laws.Events.{FollowsMachine, IsFresh, handed_out};
    ghost use Rattle.mw_core.specs.mw_store.Fetches.{ShowsSome, shown_value};
    ghost use Rattle.mw_pool_passes.specs.Passes.{with_receipt};

    /// A pass without receipts.
    pub fn new(alloc: Global) -> Pass
        ensures { result ≡ [] }
    {
        Pass {
            receipts: Vec::new(alloc),
        }
    }

    /// The receipts, in the order of the calls.
    pub fn receipts(&self) -> &[Receipt]
        ensures { result.now ≡ self.now }
    {
        self.receipts.as_slice()
    }

    /// LOAD.
    pub fn load(
        &mut self,
        core: &mut Core,
        name: Name,
        image: Result<Image, Code>,
    ) -> Result<Reply, NoMemory>
        requires { ForOk image IsImage }
        ensures served { IfOk result (FollowsMachine core.old (Call.Load name (given_image image)) (image_payload image) core.new) }
        ensures memory { IfOk result (λ r. r ≢ Reply.Refused Code.Memory) }
        ensures receipt { IfOk result (λ r. self.new ≡ with_receipt self.old (length core.old.log) (Call.Load name (given_image image)) r) }
        ensures core_stays { OnErr result (core.new ≡ core.old) }
        ensures pass_stays { OnErr result (self.new ≡ self.old) }
        ensures side { core.new.side ≡ core.old.side }
    {
        let place = core.log_len();
        let call = Call::Load(name, told_image(&image));
        self.receipts.reserve(1)?;
        let reply = core.load(name, image)?;
        self.receipts.push_reserved(Receipt { place, call, reply });
        Ok(reply)
    }

    /// ELEMENT.
    pub fn element(
        &mut self,
        core: &mut Core,
        name: Name,
        element: Result<Element, Code>,
    ) -> Result<Reply, NoMemory>
        ensures served { IfOk result (FollowsMachine core.old (Call.Element name (given_element element)) (element_payload element) core.new) }
        ensures memory { IfOk result (λ r. r ≢ Reply.Refused Code.Memory) }
        ensures receipt { IfOk result (λ r. self.new ≡ with_receipt self.old (length core.old.log) (Call.Element name (given_element element)) r) }
        ensures core_stays { OnErr result (core.new ≡ core.old) }
        ensures pass_stays { OnErr result (self.new ≡ self.old) }
        ensures side { core.new.side ≡ core.old.side }
    {
        let place = core.log_len();
        let call = Call::Element(name, told_element(&element));
        self.receipts.reserve(1)?;
        let reply = core.element(name, element)?;
        self.receipts.push_reserved(Receipt { place, call, reply });
        Ok(reply)
    }

    /// RUN.
    pub fn run(&mut self, core: &mut Core, name: Name, op: Op) -> Result<Reply, NoMemory>
        ensures served { IfOk result (FollowsMachine core.old (Call.Run name op) None core.new) }
        ensures fresh { (t : ℕ) → IfOk result (λ r. r ≡ Reply.Accepted t → IsFresh core.new t) }
        ensures receipt { IfOk result (λ r. self.new ≡ with_receipt self.old (length core.old.log) (Call.Run name op) r) }
        ensures core_stays { OnErr result (core.new ≡ core.old) }
        ensures pass_stays { OnErr result (self.new ≡ self.old) }
        ensures side { core.new.side ≡ core.old.side }
    {
        let place = core.log_len();
        self.receipts.reserve(1)?;
        let reply = core.run(name, op)?;
        let call = Call::Run(name, op);
        self.receipts.push_reserved(Receipt { place, call, reply });
        Ok(reply)
    }

    /// CANCEL.
    pub fn cancel(&mut self, core: &mut Core, name: Name) -> Result<Reply, NoMemory>
        ensures served { IfOk result (FollowsMachine core.old (Call.Cancel name) None core.new) }
        ensures receipt { IfOk result (λ r. self.new ≡ with_receipt self.old (length core.old.log) (Call.Cancel name) r) }
        ensures core_stays { OnErr result (core.new ≡ core.old) }
        ensures pass_stays { OnErr result (self.new ≡ self.old) }
        ensures side { core.new.side ≡ core.old.side }
    {
        let place = core.log_len();
        self.receipts.reserve(1)?;
        let reply = core.cancel(name)?;
        let call = Call::Cancel(name);
        self.receipts.push_reserved(Receipt { place, call, reply });
        Ok(reply)
    }

    /// RELEASE.
    pub fn release(&mut self, core: &mut Core, name: Name) -> Result<Reply, NoMemory>
        ensures served { IfOk result (FollowsMachine core.old (Call.Release name) None core.new) }
        ensures receipt { IfOk result (λ r. self.new ≡ with_receipt self.old (length core.old.log) (Call.Release name) r) }
        ensures core_stays { OnErr result (core.new ≡ core.old) }
        ensures pass_stays { OnErr result (self.new ≡ self.old) }
        ensures side { core.new.side ≡ core.old.side }
    {
        let place = core.log_len();
        self.receipts.reserve(1)?;
        let reply = core.release(name)?;
        let call = Call::Release(name);
        self.receipts.push_reserved(Receipt { place, call, reply });
        Ok(reply)
    }

    /// STATUS.
    pub fn status(&mut self, core: &mut Core, name: Name) -> Result<Reply, NoMemory>
        ensures served { IfOk result (FollowsMachine core.old (Call.Status name) None core.new) }
        ensures receipt { IfOk result (λ r. self.new ≡ with_receipt self.old (length core.old.log) (Call.Status name) r) }
        ensures core_stays { OnErr result (core.new ≡ core.old) }
        ensures pass_stays { OnErr result (self.new ≡ self.old) }
        ensures side { core.new.side ≡ core.old.side }
    {
        let place = core.log_len();
        self.receipts.reserve(1)?;
        let reply = core.status(name)?;
        let call = Call::Status(name);
        self.receipts.push_reserved(Receipt { place, call, reply });
        Ok(reply)
    }

    /// FETCH. The value is that of the ticket, and is handed out exactly where the reply is `Shown`.
    pub fn fetch(&mut self, core: &mut Core, name: Name) -> Result<Fetched, NoMemory>
        ensures served { IfOk result (λ f. FollowsMachine core.old (Call.Fetch name) None core.new f.reply) }
        ensures value { (m : Machine) → StandsFor core.old m → IfOk result (λ f. shown_value f.value ≡ handed_out m f.reply) }
        ensures shown { (m : Machine) → StandsFor core.old m → IfOk result (λ f. IsSome (shown_value f.value) ↔ ShowsSome f.reply) }
        ensures receipt { IfOk result (λ f. self.new ≡ with_receipt self.old (length core.old.log) (Call.Fetch name) f.reply) }
        ensures core_stays { OnErr result (core.new ≡ core.old) }
        ensures pass_stays { OnErr result (self.new ≡ self.old) }
        ensures side { core.new.side ≡ core.old.side }
    {
        let place = core.log_len();
        self.receipts.reserve(1)?;
        let fetched = core.fetch(name)?;
        let (call, reply) = (Call::Fetch(name), fetched.reply);
        self.receipts.push_reserved(Receipt { place, call, reply });
        Ok(fetched)
    }
}

ghost use Rattle.mw_core.specs.mw_core_laws.Payloads.{given_image, given_element};

/// What the log tells of the payload of a LOAD.
fn told_image(image: &Result<Image, Code>) -> Given
    ensures { result ≡ given_image image.now }
{
    match image {
        Ok(image) => Given::Good(image.shape()),
        Err(code) => Given::Bad(*code),
    }
}

/// What the log tells of the payload of an ELEMENT.
fn told_element(element: &Result<Element, Code>) -> Given
    ensures { result ≡ given_element element.now }
{
    match element {
        Ok(element) => Given::Good(element.shape()),
        Err(code) => Given::Bad(*code),
    }
}
