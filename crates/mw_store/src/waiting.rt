//! For each ticket the entries that wait for it, so that a settling looks at these alone.

ghost use Rattle.std.specs.Prelude.{◌≡◌, ◌≤◌, ◌<◌, ◌+◌, ◌&&◌, ◌++◌, ◌∷◌, [], ℕ, OnOk, OnErr, true, length, if◌then◌else◌};
ghost use Rattle.std.specs.List.{AllByRecursion};
ghost use Rattle.mw_model.specs.Values.{option_list};
ghost use Rattle.mw_model.specs.Refusals as words;
ghost use Rattle.mw_store.specs.Wanted.{is_among, is_at};
ghost use Rattle.mw_store.specs.Waiting.{entry_for, entry_if, room_at, waiting_at};

use mw_model::{Inputs, NoMemory, Outcome};
use std::alloc::Global;
use std::marker::Model;

/// The entries that waited for a ticket until it was settled, in ticket order.
#[derive(Drop)]
pub struct Waiters {
    tickets: Vec<u32>,
}

impl Model for Waiters {
    ghost use Rattle.std.specs.Prelude.{List, ℕ};

    ghost Value = { List ℕ };

    ghost view = { λ w. w.tickets.items };
}

impl Waiters {
    /// The entries.
    pub fn tickets(&self) -> &[u32]
        ensures { result.now ≡ self.now }
    {
        &self.tickets
    }
}

/// The entries that wait for one ticket, in ticket order, and room for more of them.
#[derive(Drop)]
pub(crate) struct WaitingList {
    tickets: Vec<u32>,
}

impl Model for WaitingList {
    ghost use Rattle.std.specs.Prelude.{◌-◌, vec_capacity, vec_len};
    ghost use Rattle.mw_store.specs.Waiting.{Waiting};

    ghost Value = { Waiting };

    ghost view = { λ w. record { tickets = w.tickets.items; room = vec_capacity w.tickets - vec_len w.tickets } };
}

impl WaitingList {
    ghost use Rattle.std.specs.Prelude.{◌≡◌, ◌≤◌, ◌+◌, ◌++◌, ◌∷◌, [], OnOk};

    /// No entry yet. No memory is asked for.
    pub(crate) fn none(alloc: Global) -> WaitingList
        ensures { result.tickets ≡ [] }
    {
        WaitingList {
            tickets: Vec::new(alloc),
        }
    }

    /// The entries, to be handed out.
    pub(crate) fn into_waiters(self) -> Waiters
        ensures { result ≡ self.tickets }
    {
        Waiters {
            tickets: self.tickets,
        }
    }

    /// Makes room for an entry, as often as it has inputs.
    fn reserve(&mut self) -> Result<(), NoMemory>
        ensures tickets { self.new.tickets ≡ self.old.tickets }
        ensures more { self.old.room ≤ self.new.room }
        ensures room { OnOk result (3 ≤ self.new.room) }
    {
        self.tickets.reserve(3)?;
        Ok(())
    }

    /// Adds an entry, for which there is room.
    fn push(&mut self, entry: u32)
        requires { 1 ≤ self.old.room }
        ensures tickets { self.new.tickets ≡ self.old.tickets ++ entry ∷ [] }
        ensures room { self.new.room + 1 ≡ self.old.room }
    {
        self.tickets.push_reserved(entry);
    }
}

/// The input, if it is pending: only that is waited for.
fn pending_input(outcomes: &[Outcome], input: Option<u32>) -> Option<u32>
    requires { AllByRecursion (λ i. i < length outcomes.now) (option_list input) }
    ensures value { (t : ℕ) → is_at result t ≡ (is_at input t && words.is_pending (words.outcome_at outcomes.now t)) }
    ensures within { AllByRecursion (λ i. i < length outcomes.now) (option_list result) }
{
    match input {
        Some(t) => {
            if outcomes[t as usize].is_pending() {
                Some(t)
            } else {
                None
            }
        }
        None => None,
    }
}

/// The inputs that are pending.
pub(crate) fn pending_inputs(outcomes: &[Outcome], inputs: Inputs) -> Inputs
    requires a { AllByRecursion (λ i. i < length outcomes.now) (option_list inputs.a) }
    requires b { AllByRecursion (λ i. i < length outcomes.now) (option_list inputs.b) }
    requires c { AllByRecursion (λ i. i < length outcomes.now) (option_list inputs.c) }
    ensures value { (t : ℕ) → is_among result t ≡ (is_among inputs t && words.is_pending (words.outcome_at outcomes.now t)) }
    ensures a { AllByRecursion (λ i. i < length outcomes.now) (option_list result.a) }
    ensures b { AllByRecursion (λ i. i < length outcomes.now) (option_list result.b) }
    ensures c { AllByRecursion (λ i. i < length outcomes.now) (option_list result.c) }
{
    Inputs {
        a: pending_input(outcomes, inputs.a),
        b: pending_input(outcomes, inputs.b),
        c: pending_input(outcomes, inputs.c),
    }
}

fn reserve_one(waiting: &mut [WaitingList], input: Option<u32>) -> Result<(), NoMemory>
    requires { AllByRecursion (λ i. i < length waiting.old) (option_list input) }
    ensures tickets { (t : ℕ) → waiting_at waiting.new t ≡ waiting_at waiting.old t }
    ensures more { (t : ℕ) → room_at waiting.old t ≤ room_at waiting.new t }
    ensures room { OnOk result (AllByRecursion (λ i. 3 ≤ room_at waiting.new i) (option_list input)) }
    ensures memory { OnErr result ((t : ℕ) × (is_at input t ≡ true)) }
{
    match input {
        Some(t) => {
            waiting[t as usize].reserve()?;
            Ok(())
        }
        None => Ok(()),
    }
}

/// Makes room for an entry with these inputs. Memory is wanting only where there is one.
pub(crate) fn reserve_inputs(waiting: &mut [WaitingList], inputs: Inputs) -> Result<(), NoMemory>
    requires a { AllByRecursion (λ i. i < length waiting.old) (option_list inputs.a) }
    requires b { AllByRecursion (λ i. i < length waiting.old) (option_list inputs.b) }
    requires c { AllByRecursion (λ i. i < length waiting.old) (option_list inputs.c) }
    ensures tickets { (t : ℕ) → waiting_at waiting.new t ≡ waiting_at waiting.old t }
    ensures a { OnOk result (AllByRecursion (λ i. 3 ≤ room_at waiting.new i) (option_list inputs.a)) }
    ensures b { OnOk result (AllByRecursion (λ i. 3 ≤ room_at waiting.new i) (option_list inputs.b)) }
    ensures c { OnOk result (AllByRecursion (λ i. 3 ≤ room_at waiting.new i) (option_list inputs.c)) }
    ensures memory { OnErr result ((t : ℕ) × (is_among inputs t ≡ true)) }
{
    reserve_one(waiting, inputs.a)?;
    reserve_one(waiting, inputs.b)?;
    reserve_one(waiting, inputs.c)
}

fn push_one(waiting: &mut [WaitingList], entry: u32, input: Option<u32>)
    requires within { AllByRecursion (λ i. i < length waiting.old) (option_list input) }
    requires room { AllByRecursion (λ i. 1 ≤ room_at waiting.old i) (option_list input) }
    ensures tickets { (t : ℕ) → waiting_at waiting.new t ≡ waiting_at waiting.old t ++ entry_if input entry t }
    ensures room { (t : ℕ) → room_at waiting.old t ≤ room_at waiting.new t + 1 }
{
    if let Some(t) = input {
        waiting[t as usize].push(entry);
    }
}

/// Adds an entry to the lists of its inputs, in which there is room.
pub(crate) fn push_inputs(waiting: &mut [WaitingList], entry: u32, inputs: Inputs)
    requires a { AllByRecursion (λ i. i < length waiting.old) (option_list inputs.a) }
    requires b { AllByRecursion (λ i. i < length waiting.old) (option_list inputs.b) }
    requires c { AllByRecursion (λ i. i < length waiting.old) (option_list inputs.c) }
    requires room_a { AllByRecursion (λ i. 3 ≤ room_at waiting.old i) (option_list inputs.a) }
    requires room_b { AllByRecursion (λ i. 3 ≤ room_at waiting.old i) (option_list inputs.b) }
    requires room_c { AllByRecursion (λ i. 3 ≤ room_at waiting.old i) (option_list inputs.c) }
    ensures { (t : ℕ) → waiting_at waiting.new t ≡ waiting_at waiting.old t ++ entry_for inputs entry t }
{
    push_one(waiting, entry, inputs.a);
    push_one(waiting, entry, inputs.b);
    push_one(waiting, entry, inputs.c);
}

/// Drops the lists of tickets that are settled.
pub(crate) fn drop_settled(alloc: Global, outcomes: &[Outcome], waiting: &mut [WaitingList])
    requires { length waiting.old ≡ length outcomes.now }
    ensures { (t : ℕ) → waiting_at waiting.new t ≡ (if words.is_pending (words.outcome_at outcomes.now t) then waiting_at waiting.old t else []) }
{
    for (t, outcome) in outcomes.iter().enumerate() {
        if !outcome.is_pending() {
            waiting[t] = WaitingList::none(alloc);
        }
    }
}
