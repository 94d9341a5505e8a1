//! The connections of the sessions that run, for the one who ends them.

use std::alloc::{AllocError, Global};
use std::net::{Shutdown, TcpStream};
use std::sync::atomic::{AtomicBool, Ordering};
use std::sync::{Arc, Mutex, Wait};

/// A connection, and whether its session is over, whatever its client sends.
#[derive(Drop)]
pub(crate) struct Seated {
    pub stream: TcpStream,
    is_over: AtomicBool,
}

/// A connection that its session shares with the service.
pub(crate) type Guest = Arc<Seated, Global>;

impl Seated {
    /// A connection whose session goes on.
    pub fn new(stream: TcpStream) -> Seated {
        Seated {
            stream,
            is_over: AtomicBool::new(false),
        }
    }

    /// Whether its session is over.
    pub fn is_over(&self) -> bool {
        self.is_over.load(Ordering::SeqCst)
    }

    /// Ends its session, which looks at that before each task, and before it reads.
    pub fn end(&self) {
        self.is_over.store(true, Ordering::SeqCst);
    }
}

/// The connections by their places, and whether they were cut.
#[derive(Drop)]
struct Table {
    guests: Vec<Option<Guest>>,
    is_cut: bool,
}

/// The connections of the sessions that run.
#[derive(Drop)]
pub(crate) struct Guests {
    table: Mutex<Table>,
}

impl Guests {
    /// Places for so many connections.
    pub fn new(alloc: Global, places: usize) -> Result<Guests, AllocError> {
        let mut guests = Vec::with_capacity(alloc, places)?;
        for _ in 0..places {
            guests.push(None)?;
        }
        Ok(Guests {
            table: Mutex::new(Table {
                guests,
                is_cut: false,
            }),
        })
    }

    /// Takes a connection in, and gives its place; none where all are taken, or where the connections were cut.
    pub fn enter<R: Wait>(&self, rt: &R, guest: Guest) -> Option<usize> {
        let mut table = self.table.lock(rt);
        if table.is_cut {
            return None;
        }
        let at = table.guests.iter().position(|place| place.is_none())?;
        let place = table.guests.get_mut(at)?;
        *place = Some(guest);
        Some(at)
    }

    /// Lets the connection at a place go.
    pub fn leave<R: Wait>(&self, rt: &R, at: usize) {
        let mut table = self.table.lock(rt);
        if let Some(place) = table.guests.get_mut(at) {
            *place = None;
        }
    }

    /// Ends each session and closes both ways of its connection, and takes in none from now on.
    pub fn cut<R: Wait>(&self, rt: &R) {
        let mut table = self.table.lock(rt);
        table.is_cut = true;
        for place in table.guests.iter() {
            if let Some(guest) = place {
                guest.end();
                let _closed = guest.stream.shutdown(Shutdown::Both);
            }
        }
    }
}
