//! Gathers bytes that come in any pieces, and cuts requests from them.

ghost use Rattle.std.specs.Prelude.{◌≡◌, ◌++◌, ◌≤◌, ◌<◌, ◌+◌, ◌*◌, ◌⊎◌, ℕ, [], length, take, drop, min, max, vec_len, vec_capacity, IfOk, OnOk, OnErr, IsTrue, ◌↔◌};
ghost use Rattle.std.specs.List.{position_or_len};
ghost use Rattle.mw_session_intake.specs.Intake.{TellsFront, Falls, CameWithLine, HasNoWholeLine, IsPortion, IsTidy, Leaves, Misses, asked};
ghost use Rattle.mw_session_intake.specs.Reading.{front, is_line_end};
ghost use Rattle.mw_model.specs.Lines.{AskAlone, Partial, asked_with};

use crate::cut::{Cut, cut_front};
use crate::line::line_end;
use mw_model::{Ask, Awaited, Next, NoMemory, Request};
use std::alloc::Global;
use std::marker::Model;
use std::mem;

/// The bytes that have come and are no request yet. Contracts see them as one list, with how many of them wait in no place
/// of their own, and how many more find a place without memory being asked for.
///
/// What comes of a payload after its line was cut goes from its piece straight into the vector that its request hands
/// out. What had come before stands in `rest`, and is copied from there into that vector: none of it, where each piece is
/// fed by portions, and the requests are cut after each. The vector grows with what comes, to the length that the line
/// names and no further. The line itself is not kept: it is told by what it asks for.
#[derive(Drop)]
pub struct Intake {
    alloc: Global,
    /// What the payload that is being gathered is to become, and its length, if one is.
    wanted: Option<(Awaited, u32)>,
    /// What has come of it.
    payload: Vec<u8>,
    /// What has come after that, from `at` on.
    rest: Vec<u8>,
    at: usize,
}

impl Model for Intake {
    ghost use Rattle.std.specs.Prelude.{◌++◌, ◌-◌, ◌≤◌, List, drop, length, vec_len, vec_capacity};
    ghost use Rattle.mw_session_intake.specs.Intake.{Held, IsGathering, line_kept, spare_of};

    ghost Value = { Held };

    ghost view = { λ s. record {
      bytes = line_kept s.wanted ++ s.payload.items ++ drop s.at s.rest.items;
      loose = length s.rest.items - s.at;
      spare = spare_of s.wanted (length s.payload.items) (vec_capacity s.payload) (length s.rest.items - s.at) (vec_capacity s.rest);
    } };

    ghost invariant = { λ s. (s.at ≤ length s.rest.items) × IsGathering s.wanted s.payload.items s.at (length s.rest.items) };
}

impl Intake {
    /// An intake without bytes; it takes no memory yet.
    pub fn new(alloc: Global) -> Intake
        ensures bytes { result.bytes ≡ [] }
        ensures loose { result.loose ≡ 0 }
        ensures spare { result.spare ≡ 0 }
    {
        Intake {
            alloc,
            wanted: None,
            payload: Vec::new(alloc),
            rest: Vec::new(alloc),
            at: 0,
        }
    }

    /// Takes the next piece. Memory is wanting only where it has more bytes than there are places for; then none of them is
    /// taken, and it has more than there are places for still.
    pub fn feed(&mut self, piece: &[u8]) -> Result<(), NoMemory>
        ensures ok { OnOk result (self.new.bytes ≡ self.old.bytes ++ piece.now) }
        ensures err { OnErr result (self.new.bytes ≡ self.old.bytes) }
        ensures memory { OnErr result (self.old.spare < length piece.now) }
        ensures still { OnErr result (self.new.spare < length piece.now) }
        ensures tidy { OnOk result (HasNoWholeLine self.old → front self.old.bytes ≡ Partial → IsPortion self.old piece.now → IsTidy self.new) }
    {
        drop_front(&mut self.rest, self.at);
        self.at = 0;
        match self.wanted {
            None => append(&mut self.rest, piece),
            Some((_, len)) => {
                let missing = len as usize - self.payload.len();
                let (mine, other) = piece.split_at(missing.min(piece.len()));
                append_both(&mut self.payload, mine, len as usize, &mut self.rest, other)
            }
        }
    }

    /// For how many bytes a payload gets places where this piece is fed: 0 where it has them, and where none is gathered.
    pub fn growth(&self, piece: &[u8]) -> usize
        ensures { 0 < result → self.now.spare < length piece.now }
    {
        match self.wanted {
            None => 0,
            Some((_, len)) => {
                let missing = len as usize - self.payload.len();
                let come = self.payload.len() + missing.min(piece.len());
                if come <= self.payload.capacity() {
                    return 0;
                }
                places(come, len as usize)
            }
        }
    }

    /// How many bytes of the piece to feed next, so that no byte of a payload is copied twice: what the payload that is
    /// gathered misses; else the piece's first line with its LF, or 202 bytes of it, since such a line is refused.
    pub fn portion(&self, piece: &[u8]) -> usize
        ensures payload { (n : ℕ) → 0 < n → Misses self.now.bytes n → result ≡ min n (length piece.now) }
        ensures line { ((n : ℕ) → 0 < n → ¬ Misses self.now.bytes n) → result ≡ min (min 201 (position_or_len is_line_end piece.now) + 1) (length piece.now) }
        ensures portion { IsPortion self.now (take result piece.now) }
        ensures some { 0 < length piece.now → 0 < result }
        ensures within { result ≤ length piece.now }
    {
        let missing = self.missing();
        if missing > 0 {
            return missing.min(piece.len());
        }
        (line_end(piece) + 1).min(piece.len())
    }

    /// How many bytes of the payload that the line at the front awaits have not come: 0 where none is awaited.
    fn missing(&self) -> usize
        ensures some { 0 < result → Misses self.now.bytes result }
        ensures none { result ≡ 0 → (n : ℕ) → 0 < n → ¬ Misses self.now.bytes n }
    {
        match self.wanted {
            Some((_, len)) => len as usize - self.payload.len(),
            None => missing_of(behind(&self.rest, self.at)),
        }
    }

    /// Cuts the request at the front, if one is there. `Bad` and `More` leave the bytes, so `Bad` is answered again. Memory is
    /// asked for only where bytes of a payload came with its line: never where the payload was fed by portions.
    pub fn next(&mut self) -> Result<Next, NoMemory>
        ensures ok { IfOk result (λ next. TellsFront next self.old.bytes self.new.bytes) }
        ensures falls { IfOk result (λ next. Falls next self.old.bytes self.new.bytes) }
        ensures err { OnErr result (self.new ≡ self.old) }
        ensures memory { OnErr result (CameWithLine self.old) }
        ensures tidy { IfOk result (λ next. IsTidy self.old → Leaves next self.new) }
    {
        match self.wanted {
            None => {}
            Some((what, len)) => {
                if self.payload.len() < len as usize {
                    return Ok(Next::More);
                }
                self.wanted = None;
                let request = gathered(self.alloc, what, &mut self.payload);
                return Ok(Next::Request(request));
            }
        }
        let bytes = behind(&self.rest, self.at);
        match cut_front(bytes) {
            Cut::Bad(code) => Ok(Next::Bad(code)),
            Cut::More => Ok(Next::More),
            Cut::Alone(ask, used) => {
                self.at += used;
                Ok(Next::Request(alone(ask)))
            }
            Cut::Payload(what, len, used) => {
                let (_, more) = bytes.split_at(used);
                let n = more.len().min(len as usize);
                let (mine, _) = more.split_at(n);
                gather(&mut self.payload, mine, len as usize)?;
                self.at += used + n;
                if n < len as usize {
                    self.wanted = Some((what, len));
                    return Ok(Next::More);
                }
                Ok(Next::Request(gathered(self.alloc, what, &mut self.payload)))
            }
        }
    }

    /// Whether no byte waits.
    pub fn at_boundary(&self) -> bool
        ensures { IsTrue result ↔ (self.now.bytes ≡ []) }
    {
        match self.wanted {
            None => self.at == self.rest.len(),
            Some(_) => false,
        }
    }
}

/// How many bytes of the payload that the line at the front awaits are missing: 0 where none is awaited.
fn missing_of(bytes: &[u8]) -> usize
    ensures some { 0 < result → Misses bytes.now result }
    ensures none { result ≡ 0 → (n : ℕ) → 0 < n → ¬ Misses bytes.now n }
{
    match cut_front(bytes) {
        Cut::Payload(_, len, used) => (used + len as usize).saturating_sub(bytes.len()),
        _ => 0,
    }
}

/// The request of a line without payload.
fn alone(ask: Ask) -> Request
    ensures { asked result ≡ AskAlone ask }
{
    match ask {
        Ask::Run(name, op) => Request::Run(name, op),
        Ask::Cancel(name) => Request::Cancel(name),
        Ask::Release(name) => Request::Release(name),
        Ask::Status(name) => Request::Status(name),
        Ask::Fetch(name) => Request::Fetch(name),
        Ask::Wait(name) => Request::Wait(name),
        Ask::Quit => Request::Quit,
    }
}

/// The request of a line with its payload.
fn with_payload(what: Awaited, payload: Vec<u8>) -> Request
    ensures { asked result ≡ asked_with what payload.items }
{
    match what {
        Awaited::Image(name) => Request::Load(name, payload),
        Awaited::Element(name, ox, oy) => Request::Element(name, ox, oy, payload),
    }
}

/// The request of a line with all of its payload, which leaves its place empty.
fn gathered(alloc: Global, what: Awaited, payload: &mut Vec<u8>) -> Request
    ensures asked { asked result ≡ asked_with what payload.old.items }
    ensures payload { payload.new.items ≡ [] }
{
    with_payload(what, mem::replace(payload, Vec::new(alloc)))
}

/// What stands from `at` on.
fn behind(v: &Vec<u8>, at: usize) -> &[u8]
    requires { at ≤ length v.now.items }
    ensures { result.now ≡ drop at v.now.items }
{
    &v[at..]
}

/// Takes the first `at` items away.
fn drop_front(v: &mut Vec<u8>, at: usize)
    requires { at ≤ length v.old.items }
    ensures items { v.new.items ≡ drop at v.old.items }
    ensures capacity { vec_capacity v.new ≡ vec_capacity v.old }
{
    if at > 0 {
        let left = v.len() - at;
        v.copy_within(at.., 0);
        v.truncate(left);
    }
}

/// For how many bytes of a payload to have places when so many have come, of which most will come at last: the least half,
/// quarter and so on of these that has them all, and 64 more. Halves of the whole end at the whole, and not beyond it.
fn places(come: usize, most: usize) -> usize
    requires { come ≤ most }
    ensures enough { come ≤ result }
    ensures announced { result ≤ most }
    ensures few { result < 2 * max come 64 }
{
    let least = come.max(64);
    let mut places = most;
    'halves: while places / 2 >= least {
        places = places / 2;
    }
    places
}

/// Makes room for so many bytes more of a payload, of which most will come at last: for no more than that, nor for more than
/// twice what has come then, or 128 bytes.
fn grow(payload: &mut Vec<u8>, more: usize, most: usize) -> Result<(), NoMemory>
    requires { vec_len payload.old + more ≤ most }
    ensures items { payload.new.items ≡ payload.old.items }
    ensures len { vec_len payload.new ≡ vec_len payload.old }
    ensures room { OnOk result (vec_len payload.new + more ≤ vec_capacity payload.new) }
    ensures announced { OnOk result (vec_capacity payload.new ≤ max (vec_capacity payload.old) most) }
    ensures few { OnOk result (vec_capacity payload.new ≤ max (vec_capacity payload.old) (2 * max (vec_len payload.old + more) 64)) }
    ensures memory { OnErr result (vec_capacity payload.old < vec_len payload.old + more) }
    ensures err { OnErr result (vec_capacity payload.new ≡ vec_capacity payload.old) }
{
    let come = payload.len() + more;
    if come <= payload.capacity() {
        return Ok(());
    }
    payload.reserve_exact(places(come, most) - payload.len())?;
    Ok(())
}

/// Appends to a payload, of which most will come at last.
fn gather(payload: &mut Vec<u8>, mine: &[u8], most: usize) -> Result<(), NoMemory>
    requires { vec_len payload.old + length mine.now ≤ most }
    ensures ok { OnOk result (payload.new.items ≡ payload.old.items ++ mine.now) }
    ensures err { OnErr result (payload.new.items ≡ payload.old.items) }
    ensures memory { OnErr result (0 < length mine.now) }
{
    grow(payload, mine.len(), most)?;
    payload.extend_from_slice(mine)?;
    Ok(())
}

/// Appends, or makes no more places.
fn append(v: &mut Vec<u8>, bytes: &[u8]) -> Result<(), NoMemory>
    ensures ok { OnOk result (v.new.items ≡ v.old.items ++ bytes.now) }
    ensures err { OnErr result (v.new.items ≡ v.old.items) }
    ensures memory { OnErr result (vec_capacity v.old < vec_len v.old + length bytes.now) }
    ensures still { OnErr result (vec_capacity v.new < vec_len v.new + length bytes.now) }
{
    v.reserve(bytes.len())?;
    let Ok(()) = v.extend_from_slice(bytes) else {
        unreachable!()
    };
    Ok(())
}

/// Appends to a payload, of which most will come at last, and to what waits behind it; or to neither.
fn append_both(
    payload: &mut Vec<u8>,
    mine: &[u8],
    most: usize,
    rest: &mut Vec<u8>,
    other: &[u8],
) -> Result<(), NoMemory>
    requires { vec_len payload.old + length mine.now ≤ most }
    ensures ok { OnOk result ((payload.new.items ≡ payload.old.items ++ mine.now) × (rest.new.items ≡ rest.old.items ++ other.now)) }
    ensures err { OnErr result ((payload.new.items ≡ payload.old.items) × (rest.new.items ≡ rest.old.items)) }
    ensures memory { OnErr result ((vec_capacity payload.old < vec_len payload.old + length mine.now) ⊎ (vec_capacity rest.old < vec_len rest.old + length other.now)) }
    ensures still { OnErr result ((vec_capacity payload.new < vec_len payload.new + length mine.now) ⊎ ((vec_len payload.new + length mine.now ≤ vec_capacity payload.new) × (vec_capacity rest.new < vec_len rest.new + length other.now))) }
{
    grow(payload, mine.len(), most)?;
    append(rest, other)?;
    let Ok(()) = payload.extend_from_slice(mine) else {
        unreachable!()
    };
    Ok(())
}
