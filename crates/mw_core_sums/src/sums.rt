//! Numbers by place with their sum.

ghost use Rattle.std.specs.Prelude.{◌≡◌, ℕ, ◌+◌, ◌-◌, ◌<◌, ◌≤◌, ◌^◌, ◌++◌, ◌∷◌, [], List, length, take, sum, slice_index, slice_set, MatchResult};

use crate::tree::{descend, make_room, write};
use mw_model::NoMemory;
use std::alloc::Global;
use std::marker::Model;

/// At most 65,536 numbers by place, with their sum.
#[derive(Drop)]
pub struct Sums {
    alloc: Global,
    tree: Vec<u64>,
    room: usize,
    len: u32,
}

impl Model for Sums {
    ghost use Rattle.std.specs.Prelude.{ℕ, List};
    ghost use Rattle.mw_core_sums.specs.Trees.{leaves, Uses};

    ghost Value = { List ℕ };

    ghost view = { λ a. leaves a.tree.items a.room a.len };

    ghost invariant = { λ a. Uses a.tree.items a.room a.len };
}

impl Sums {
    /// No numbers. Takes no memory.
    pub fn new(alloc: Global) -> Sums
        ensures { result ≡ [] }
    {
        Sums {
            alloc,
            tree: Vec::new(alloc),
            room: 0,
            len: 0,
        }
    }

    /// One number more, behind the others.
    ///
    /// # Errors
    ///
    /// `NoMemory`, where the tree is full and a wider one is not to be had; the numbers are then as they were.
    pub fn push(&mut self, number: u32) -> Result<(), NoMemory>
        requires { length self.old < 65536 }
        ensures { MatchResult result (λ _. self.new ≡ self.old ++ number ∷ []) (λ _. self.new ≡ self.old) }
    {
        self.room = make_room(self.alloc, &mut self.tree, self.room, self.len)?;
        write(&mut self.tree, self.room, self.len as usize, number);
        self.len += 1;
        Ok(())
    }

    /// Takes the last number away. Asks for no memory.
    pub fn pop(&mut self)
        requires { 1 ≤ length self.old }
        ensures { self.new ≡ take (length self.old - 1) self.old }
    {
        self.len -= 1;
        write(&mut self.tree, self.room, self.len as usize, 0);
    }

    /// How many numbers there are.
    pub fn len(&self) -> u32
        ensures { result ≡ length self.now }
    {
        self.len
    }

    /// The number at a place.
    pub fn get(&self, place: u32) -> u32
        requires { place < length self.now }
        ensures { result ≡ slice_index self.now place }
    {
        self.tree[self.room + place as usize] as u32
    }

    /// Writes the number at a place.
    pub fn set(&mut self, place: u32, number: u32)
        requires { place < length self.old }
        ensures { self.new ≡ slice_set self.old place number }
    {
        write(&mut self.tree, self.room, place as usize, number);
    }

    /// The sum of all numbers.
    pub fn total(&self) -> u64
        ensures { result ≡ sum self.now }
    {
        if self.room == 0 { 0 } else { self.tree[1] }
    }

    /// Where each place has as many positions as its number says, one after another from 0 on: the place of a position,
    /// and its number among those of the place.
    pub fn find(&self, position: u64) -> (u32, u64)
        requires { position < sum self.now }
        ensures within { result.0 < length self.now }
        ensures before { sum (take result.0 self.now) ≤ position }
        ensures here { position < sum (take result.0 self.now) + slice_index self.now result.0 }
        ensures rest { result.1 ≡ position - sum (take result.0 self.now) }
        ensures small { result.1 < 2 ^ 32 }
    {
        let (place, rest) = descend(&self.tree, self.room, position);
        (place as u32, rest)
    }
}
