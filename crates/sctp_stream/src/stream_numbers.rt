//! The numbers of the open streams, and where each stands.

ghost use Rattle.std.specs.Prelude.{◌≡◌, ◌++◌, ◌∷◌, [], OnOk, OnErr, IsOkUnless, MatchOption, Some, ℕ, length, slice_get, vec_len, vec_capacity, ◌<◌, ◌≤◌, ◌^◌, ◌==◌};
ghost use Rattle.sctp_util.specs.declared.error.Error.TheVariants.{ErrOutOfMemory};
ghost use Rattle.sctp_stream.specs.Numbers.{IsOnlyPlace, IsAbsent, swapped_out};

use sctp_util::error::Result;
use std::alloc::Global;
use std::marker::Model;

/// The numbers of the open streams, in the order in which they were opened; where one was closed, the last one stands in its place.
/// The place of each is found in two steps, whatever their count: in a table with two bytes for each number up to the greatest that
/// was put, so in at most 128 KiB.
#[derive(Drop)]
pub struct StreamNumbers {
    numbers: Vec<u16>,
    // The place of each number, at the number. What stands at a number that is not among them means nothing.
    places: Vec<u16>,
}

impl Model for StreamNumbers {
    ghost use Rattle.std.specs.Prelude.{ℕ, List, ◌≤◌, ◌^◌, length};
    ghost use Rattle.sctp_stream.specs.Numbers.{IsPlaced};

    ghost Value = { List ℕ };

    ghost view = { λ n. n.numbers.items };

    ghost invariant = { λ n. record {
      placed : IsPlaced n.places.items n.numbers.items;
      short : length n.places.items ≤ 2 ^ 16;
    } };
}

impl StreamNumbers {
    /// No numbers. It takes no memory.
    pub fn new(alloc: Global) -> Self
        ensures { result ≡ [] }
    {
        StreamNumbers {
            numbers: Vec::new(alloc),
            places: Vec::new(alloc),
        }
    }

    /// Where a number stands, None where it does not.
    pub fn place_of(&self, stream: u16) -> Option<usize>
        ensures { MatchOption result (IsAbsent stream self.now) (IsOnlyPlace stream self.now) }
    {
        let place = element(&self.places, stream as usize)? as usize;
        let number = element(&self.numbers, place)?;
        if number != stream {
            return None;
        }
        Some(place)
    }

    /// Puts a number behind the others. Refuses only for memory, and the numbers are as they were then.
    /// Precondition: the number is not among them.
    pub fn push(&mut self, stream: u16) -> Result<()>
        requires { IsAbsent stream self.old }
        ensures ok { OnOk result (self.new ≡ self.old ++ stream ∷ []) }
        ensures err { OnErr result (self.new ≡ self.old) }
        ensures memory { IsOkUnless result ErrOutOfMemory }
    {
        self.numbers.reserve(1)?;
        lengthen(&mut self.places, stream)?;
        let place = self.numbers.len();
        self.places[stream as usize] = place as u16;
        put(&mut self.numbers, stream);
        Ok(())
    }

    /// Takes a number out, where it is among them: the last one takes its place. It takes no memory.
    pub fn remove(&mut self, stream: u16)
        ensures { self.new ≡ swapped_out (λ n. n == stream) self.old }
    {
        let Some(place) = self.place_of(stream) else {
            return;
        };
        self.numbers.swap_remove(place);
        if place < self.numbers.len() {
            self.places[self.numbers[place] as usize] = place as u16;
        }
    }
}

// The element at a place, None past the last one.
fn element(items: &Vec<u16>, place: usize) -> Option<u16>
    ensures { result ≡ slice_get items.now.items place }
{
    items.get(place).copied()
}

// Makes a table so long that it has an entry at the number. Refuses only for memory.
fn lengthen(places: &mut Vec<u16>, stream: u16) -> Result<()>
    requires { length places.old.items ≤ 2 ^ 16 }
    ensures kept { (s k : ℕ) → slice_get places.old.items s ≡ Some k
        → slice_get places.new.items s ≡ Some k }
    ensures ok { OnOk result (stream < length places.new.items) }
    ensures short { length places.new.items ≤ 2 ^ 16 }
    ensures memory { IsOkUnless result ErrOutOfMemory }
{
    let len = stream as usize + 1;
    if places.len() < len {
        places.resize(len, 0)?;
    }
    Ok(())
}

/// Makes room for one item more, where there is none. A short list gets one place, since most hosts open one stream or a few; a longer
/// one an eighth of its length too, so that by no clause each item moves nine times at most. Refuses only for memory.
pub fn make_place<T: Drop>(items: &mut Vec<T>) -> Result<()>
    ensures items { items.new.items ≡ items.old.items }
    ensures room { OnOk result (vec_len items.new < vec_capacity items.new) }
    ensures memory { IsOkUnless result ErrOutOfMemory }
{
    let len = items.len();
    if len == items.capacity() {
        items.reserve_exact(len / 8 + 1)?;
    }
    Ok(())
}

/// Puts an item where room was made for it.
/// Precondition: there is room.
pub fn put<T: Drop>(items: &mut Vec<T>, item: T)
    requires { vec_len items.old < vec_capacity items.old }
    ensures items { items.new.items ≡ items.old.items ++ item ∷ [] }
    ensures capacity { vec_capacity items.old ≤ vec_capacity items.new }
{
    let _ = items.push(item);
}
