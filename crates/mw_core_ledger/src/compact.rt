//! One item of the log.

ghost use Rattle.std.specs.Prelude.{◌≡◌, IfOk, OnErr, MatchOption, true, false};
ghost use Rattle.mw_core_ledger.specs.Short.{is_long, is_verdict, item_of, reply_of};

use mw_model::{Call, Code, Given, LogItem, Name, NoMemory, Reply};
use std::alloc::Global;
use std::marker::Model;
use std::mem::size_of;

/// What a payload is answered: it is accepted under a ticket, or refused.
#[derive(Clone, Copy)]
enum Verdict {
    Accepted(u32),
    Refused(Code),
}

/// An item, with no more room than its call takes.
#[derive(Drop)]
enum Short {
    Load(Name, Given, Verdict),
    Element(Name, Given, Verdict),
    Cancel(Name, Reply),
    Status(Name, Reply),
    Fetch(Name, Reply),
    Release(Name, Reply),
    Finished(u32),
    Killed(u32),
    /// A RUN, in a block of its own.
    Long(Box<LogItem>),
}

const _: () = prove!(size_of::<LogItem>() > 160);

const _: () = prove!(size_of::<Short>() <= 64);

/// An item of the log, in at most 64 bytes. Contracts see it as the item.
#[derive(Drop)]
pub struct Compact {
    kept: Short,
}

impl Model for Compact {
    ghost use Rattle.mw_model.specs.declared.calls.LogItem.{LogItem};
    ghost use Rattle.mw_core_ledger.specs.Short.{item_of};

    ghost Value = { LogItem };

    ghost view = { λ c. item_of c.kept };
}

impl Compact {
    /// Any item. Memory is asked for only where it is long.
    pub fn new(alloc: Global, item: LogItem) -> Result<Compact, NoMemory>
        ensures ok { IfOk result (λ c. c ≡ item) }
        ensures memory { OnErr result (is_long item ≡ true) }
    {
        match short_of(item) {
            Some(kept) => Ok(Compact { kept }),
            None => Ok(Compact {
                kept: Short::Long(Box::new(alloc, item)?),
            }),
        }
    }

    /// An item that is not long, without memory.
    pub fn short(item: LogItem) -> Compact
        requires { is_long item ≡ false }
        ensures { result ≡ item }
    {
        match short_of(item) {
            Some(kept) => Compact { kept },
            None => unreachable!(),
        }
    }

    /// The item.
    pub fn item(&self) -> LogItem
        ensures { result ≡ self.now }
    {
        whole(&self.kept)
    }
}

/// A reply that tells no more than a ticket or a refusal.
fn verdict_of(reply: Reply) -> Option<Verdict>
    ensures { MatchOption result (is_verdict reply ≡ false) (λ v. reply_of v ≡ reply) }
{
    match reply {
        Reply::Accepted(t) => Some(Verdict::Accepted(t)),
        Reply::Refused(code) => Some(Verdict::Refused(code)),
        _ => None,
    }
}

fn reply_of(verdict: Verdict) -> Reply
    ensures { result ≡ reply_of verdict }
{
    match verdict {
        Verdict::Accepted(t) => Reply::Accepted(t),
        Verdict::Refused(code) => Reply::Refused(code),
    }
}

/// The item, kept short; None where it is long.
fn short_of(item: LogItem) -> Option<Short>
    ensures { MatchOption result (is_long item ≡ true) (λ s. item_of s ≡ item) }
{
    match item {
        LogItem::Call(call, reply) => short_call(call, reply),
        LogItem::Finished(t) => Some(Short::Finished(t)),
        LogItem::Killed(t) => Some(Short::Killed(t)),
    }
}

/// The item of a call, kept short; None where it is long.
fn short_call(call: Call, reply: Reply) -> Option<Short>
    ensures { MatchOption result (is_long (LogItem.Call call reply) ≡ true) (λ s. item_of s ≡ LogItem.Call call reply) }
{
    match call {
        Call::Run(_, _) => None,
        Call::Load(name, given) => match verdict_of(reply) {
            Some(verdict) => Some(Short::Load(name, given, verdict)),
            None => None,
        },
        Call::Element(name, given) => match verdict_of(reply) {
            Some(verdict) => Some(Short::Element(name, given, verdict)),
            None => None,
        },
        Call::Cancel(name) => Some(Short::Cancel(name, reply)),
        Call::Status(name) => Some(Short::Status(name, reply)),
        Call::Fetch(name) => Some(Short::Fetch(name, reply)),
        Call::Release(name) => Some(Short::Release(name, reply)),
    }
}

fn whole(kept: &Short) -> LogItem
    ensures { result ≡ item_of kept.now }
{
    match kept {
        Short::Load(name, given, verdict) => {
            LogItem::Call(Call::Load(*name, *given), reply_of(*verdict))
        }
        Short::Element(name, given, verdict) => {
            LogItem::Call(Call::Element(*name, *given), reply_of(*verdict))
        }
        Short::Cancel(name, reply) => LogItem::Call(Call::Cancel(*name), *reply),
        Short::Status(name, reply) => LogItem::Call(Call::Status(*name), *reply),
        Short::Fetch(name, reply) => LogItem::Call(Call::Fetch(*name), *reply),
        Short::Release(name, reply) => LogItem::Call(Call::Release(*name), *reply),
        Short::Finished(t) => LogItem::Finished(*t),
        Short::Killed(t) => LogItem::Killed(*t),
        Short::Long(item) => **item,
    }
}
