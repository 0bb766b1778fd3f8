//! Sets of stream numbers.

ghost use Rattle.std.specs.Prelude.{◌≡◌, ◌==◌, ◌<◌, ◌≤◌, ◌^◌, ℕ, [], true, false, Some, IfSome, OnOk, OnErr, get_or, length, take, if◌then◌else◌};
ghost use Rattle.sctp_association.specs.StreamSet.{IsLeastIn, IsEmpty, is_in};

use std::alloc::{AllocError, Global};
use std::marker::Model;

/// A set of stream numbers. Numbers for which there is room are put into it without memory; a number takes a byte.
#[derive(Drop)]
pub(crate) struct StreamSet {
    flags: Vec<bool>,
    // where it is false there are none
    is_any: bool,
}

impl Model for StreamSet {
    ghost use Rattle.std.specs.Prelude.{◌≡◌, ◌≤◌, ◌^◌, Bool, List, false, length};
    ghost use Rattle.sctp_association.specs.StreamSet.{IsEmpty};

    ghost Value = { List Bool };

    ghost view = { λ s. s.flags.items };

    ghost invariant = { λ s. record {
      few : length s.flags.items ≤ 2 ^ 16;
      none : s.is_any ≡ false → IsEmpty s.flags.items;
    } };
}

impl StreamSet {
    /// No numbers. It takes no memory.
    pub(crate) fn new(alloc: Global) -> Self
        ensures { result ≡ [] }
    {
        StreamSet {
            flags: Vec::new(alloc),
            is_any: false,
        }
    }

    /// Makes room for a number and those below it. Refuses only for memory. The set stays the same.
    pub(crate) fn reserve(&mut self, stream: u16) -> Result<(), AllocError>
        ensures same { (n : ℕ) → is_in n self.new ≡ is_in n self.old }
        ensures room { OnOk result (stream < length self.new) }
        ensures kept { length self.old ≤ length self.new }
        ensures begins { take (length self.old) self.new ≡ self.old }
        ensures err { OnErr result (self.new ≡ self.old) }
    {
        let wanted = stream as usize + 1;
        if self.flags.len() < wanted {
            self.flags.resize(wanted, false)?;
        }
        Ok(())
    }

    /// For how many numbers there is room: those below this one. Each number takes a byte.
    pub(crate) fn room(&self) -> usize
        ensures value { result ≡ length self.now }
        ensures few { result ≤ 2 ^ 16 }
    {
        self.flags.len()
    }

    /// Gives up the room past so many numbers. It takes no memory.
    pub(crate) fn shrink(&mut self, room: usize)
        ensures { self.new ≡ take room self.old }
    {
        self.flags.truncate(room);
        self.is_any = true;
    }

    /// Puts a number into it, if there is room for it (`reserve`). It takes no memory.
    pub(crate) fn insert(&mut self, stream: u16)
        ensures value { stream < length self.old → (n : ℕ) → is_in n self.new
            ≡ (if n == stream then true else is_in n self.old) }
        ensures full { length self.old ≤ stream → self.new ≡ self.old }
        ensures room { length self.new ≡ length self.old }
    {
        let place = stream as usize;
        if place < self.flags.len() {
            self.flags[place] = true;
            self.is_any = true;
        }
    }

    /// Whether a number is in it.
    pub(crate) fn contains(&self, stream: u16) -> bool
        ensures { result ≡ is_in stream self.now }
    {
        match self.flags.get(stream as usize) {
            Some(flag) => *flag,
            None => false,
        }
    }

    /// Takes a number out, if it is there. Its room stays.
    pub(crate) fn remove(&mut self, stream: u16)
        ensures value { (n : ℕ) → is_in n self.new
            ≡ (if n == stream then false else is_in n self.old) }
        ensures room { length self.new ≡ length self.old }
    {
        let at = stream as usize;
        if at < self.flags.len() {
            self.flags[at] = false;
        }
    }

    /// Takes the least number out, if there is one. It looks at each number below it.
    pub(crate) fn pop(&mut self) -> Option<u16>
        ensures least { IfSome result (λ s. IsLeastIn s self.old) }
        ensures value { IfSome result (λ s. (n : ℕ) → is_in n self.new
            ≡ (if n == s then false else is_in n self.old)) }
        ensures none { result ≡ None → IsEmpty self.old }
        ensures kept { result ≡ None → self.new ≡ self.old }
        ensures room { length self.new ≡ length self.old }
    {
        if !self.is_any {
            return None;
        }
        let Some(place) = self.flags.iter().position(|flag| *flag) else {
            self.is_any = false;
            return None;
        };
        self.flags[place] = false;
        Some(place as u16)
    }
}
