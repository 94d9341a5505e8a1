//! FETCH: a session call that hands out a value.

ghost use Rattle.std.specs.Prelude.{◌≡◌, ◌⊎◌, ◌↔◌, IsSome, ◌<◌, ℕ, length, OnErr, IfOk, None};

use crate::machine::Core;
use mw_core_ledger::{Fetched, FetchedValue};
use mw_model::{Call, Name, NoMemory, Reply};

impl Core {
    ghost use Rattle.mw_model.specs.Values.{value_at};
    ghost use Rattle.mw_model.specs.Machine.{Machine, reply_from};
    ghost use Rattle.mw_model.specs.Stands.{StandsFor};
    ghost use Rattle.mw_core_ledger.specs.mw_core_laws.Events.{FollowsMachine, handed_out};
    ghost use Rattle.mw_core_ledger.specs.mw_core_laws.Rows.{IsLogFull};
    ghost use Rattle.mw_core_refusals.specs.mw_store.Fetches.{IsShown, ShowsSome, fetchable, shown_value};

    /// The value that is kept of a ticket, unless it is an element.
    fn value(&self, t: u32) -> Result<FetchedValue, NoMemory>
        requires { t < length self.now.table.names }
        ensures { IfOk result (λ v. shown_value v ≡ fetchable (value_at self.now.kept t)) }
    {
        let store = self.ledger.store();
        if let Some(plate) = store.plate(t)? {
            return Ok(FetchedValue::Image(plate));
        }
        match store.curve(self.alloc, t)? {
            Some(curve) => Ok(FetchedValue::Curve(curve)),
            None => Ok(FetchedValue::Nothing),
        }
    }

    /// The value that goes with a reply.
    fn shown(&self, reply: Reply) -> Result<FetchedValue, NoMemory>
        requires { (t : ℕ) → reply ≡ Reply.Shown t → t < length self.now.table.names }
        ensures shown { IfOk result (IsShown self.now reply) }
        ensures memory { OnErr result ((t : ℕ) × (reply ≡ Reply.Shown t)) }
    {
        match reply {
            Reply::Shown(t) => self.value(t),
            _ => Ok(FetchedValue::Nothing),
        }
    }

    /// FETCH. The value is that of the ticket, and is handed out exactly where the reply is `FetchedValue`. Where it is not, memory is
    /// wanting only where the log is full.
    pub fn fetch(&mut self, name: Name) -> Result<Fetched, NoMemory>
        ensures served { IfOk result (λ f. FollowsMachine self.old (Call.Fetch name) None self.new f.reply) }
        ensures value { (m : Machine) → StandsFor self.old m → IfOk result (λ f. shown_value f.value ≡ handed_out m f.reply) }
        ensures shown { (m : Machine) → StandsFor self.old m → IfOk result (λ f. IsSome (shown_value f.value) ↔ ShowsSome f.reply) }
        ensures err { OnErr result (self.new ≡ self.old) }
        ensures full { OnErr result (IsLogFull self.old ⊎ ((t : ℕ) × (reply_from self.old.table self.old.kept (Call.Fetch name) ≡ Reply.Shown t))) }
        ensures side { self.new.side ≡ self.old.side }
    {
        let reply = mw_core_refusals::fetch_reply(self.ledger.store(), name);
        let value = self.shown(reply)?;
        self.note(Call::Fetch(name), reply)?;
        Ok(Fetched { reply, value })
    }
}
