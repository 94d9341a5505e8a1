//! Which sessions are woken, and what they sleep on while they wait for entries.

ghost use Rattle.std.specs.Prelude.{◌≡◌, ◌%◌};
ghost use Rattle.mw_pool.specs.Wakings.{settled_by, ended_by, killed_by};

use mw_pool_passes::{Finish, Refusal, Started};
use std::array::from_fn;
use std::sync::Condvar;

/// Which of the sessions that wait are to look again.
#[derive(Clone, Copy)]
pub(crate) enum Sleepers {
    Nobody,
    /// Those that wait for this ticket.
    Of(u32),
    All,
}

impl Sleepers {
    /// Where a result was the last of its ticket, that ticket alone is settled.
    pub fn of_finish(answer: &Finish) -> Sleepers
        ensures { result ≡ settled_by answer.now }
    {
        match answer {
            Finish::Settled(ticket) => Sleepers::Of(*ticket),
            _ => Sleepers::Nobody,
        }
    }

    /// Where a task found no memory at its start, its ticket is killed, and what depends on it is settled with it.
    pub fn of_start(started: &Started) -> Sleepers
        ensures { result ≡ ended_by started.now }
    {
        match started {
            Started::Refused(_) => Sleepers::All,
            _ => Sleepers::Nobody,
        }
    }

    /// Where a running task found no memory, its ticket is killed too.
    pub fn of_refusal(answer: &Refusal) -> Sleepers
        ensures { result ≡ killed_by answer.now }
    {
        match answer {
            Refusal::Killed(_) => Sleepers::All,
            _ => Sleepers::Nobody,
        }
    }
}

/// How many classes of tickets there are: as many as sessions may well wait at once.
const CLASSES: usize = 64;

/// The class of a ticket, which is its remainder. It shares no class with the next 63 tickets.
fn class_of(ticket: u32) -> usize
    ensures { result ≡ ticket % 64 }
{
    ticket as usize % CLASSES
}

/// A condition variable for each class of tickets, so that who settles one ticket wakes only those who wait for a ticket of
/// its class.
#[derive(Drop)]
pub(crate) struct Signals {
    classes: [Condvar; CLASSES],
}

impl Signals {
    pub fn new() -> Signals {
        Signals {
            classes: from_fn(|_| Condvar::new()),
        }
    }

    /// Wakes these.
    pub fn wake(&self, sleepers: Sleepers) {
        match sleepers {
            Sleepers::Nobody => {}
            Sleepers::Of(ticket) => self.of(ticket).notify_all(),
            Sleepers::All => self.wake_all(),
        }
    }

    /// That of a ticket's class.
    pub fn of(&self, ticket: u32) -> &Condvar {
        &self.classes[class_of(ticket)]
    }

    /// Wakes those who wait for any ticket.
    pub fn wake_all(&self) {
        for class in &self.classes {
            class.notify_all();
        }
    }
}
