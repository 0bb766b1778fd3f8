//! The messages of one way that are put together from fragments (RFC 8260): stream by stream, ordered and unordered ones apart.

ghost use Rattle.std.specs.Prelude.{◌≡◌, ℕ, ◌+◌, ◌*◌, ◌%◌, ◌<◌, ◌≤◌, ◌⊎◌, ◌==◌, ◌↔◌, None, true, false, if◌then◌else◌, [], length, nat_eq, option_map, IsTrue, IsSome, IfOk, IfSome, IfNone, OnOk, OnErr, OnSome};
ghost use Rattle.std.specs.BTreeMap as trees;
ghost use Rattle.std.specs.Ordering.{nat_cmp};
ghost use Rattle.sctp_util.specs.Serial.{at_or_before};
ghost use Rattle.sctp_follow.specs.Forgetting.{Forgets, Leaves, has_tsn, held_of, none_due};
ghost use Rattle.sctp_follow.specs.Interleave.{FitEach, IsMessage};
ghost use Rattle.sctp_follow.specs.Lanes as lanes;
ghost use Rattle.sctp_follow.specs.Passing as passing;
ghost use Rattle.sctp_follow.specs.Spots as noted;

use crate::interleave::{Fragment, Name, Whole, fits};
use crate::keys::first_up_to;
use crate::spots::{Spot, Spots};
use sctp_util::util::{sna32lt, sna32lte};
use std::alloc::{AllocError, Global};
use std::collections::BTreeMap;

/// How much of a stream is held, or is dropped.
#[derive(Clone, Copy, Debug, PartialEq, Eq)]
pub struct Amount {
    pub stream: u16,
    pub chunks: usize,
    pub bytes: usize,
}

/// What is gained where numbers or TSNs are passed: messages that waited for them, and what is dropped.
#[derive(Drop)]
pub struct Passing {
    pub messages: Vec<Whole>,
    pub dropped: Vec<Amount>,
}

/// What is gained of one lane where a fragment is looked at.
#[derive(Drop)]
struct Seen {
    messages: Vec<Whole>,
    dropped: Amount,
}

/// The fragments of a message that came so far, by their places.
#[derive(Drop)]
struct Part {
    fragments: BTreeMap<u32, Fragment>,
}

/// The ordered messages of a stream, or the unordered ones.
#[derive(Drop)]
struct Lane {
    /// The number of the next ordered message. Unordered ones have none.
    next: Option<u32>,
    parts: BTreeMap<u32, Part>,
}

/// What is held of one way. It grows with what does not become complete.
#[derive(Drop)]
pub struct Interleaved {
    lanes: BTreeMap<u32, Lane>,
    spots: Spots,
    /// Whether the way was captured from its initial TSN on: then the first number of each stream is 0 (RFC 8260 2.1).
    is_whole: bool,
}

impl Seen {
    /// Nothing of a stream.
    fn nothing(alloc: Global, stream: u16) -> Self
        ensures { result.messages.items ≡ [] }
    {
        Seen {
            messages: Vec::new(alloc),
            dropped: Amount::none(stream),
        }
    }
}

impl Part {
    /// Nothing came yet.
    fn new(alloc: Global) -> Self
        ensures { trees.IsEmpty result.fragments }
    {
        Part {
            fragments: BTreeMap::new(alloc),
        }
    }

    /// Keeps a fragment, in the place of one that came there before.
    fn add(&mut self, fragment: Fragment) -> Result<(), AllocError>
        ensures ok { OnOk result (self.new.fragments.entries
            ≡ trees.insert_entry nat_cmp self.old.fragments.entries fragment.place fragment) }
        ensures err { OnErr result (self.new.fragments.entries ≡ self.old.fragments.entries) }
    {
        match self.fragments.insert(fragment.place, fragment) {
            Ok(_) => Ok(()),
            Err(_) => Err(AllocError),
        }
    }

    /// Whether the last one of the fragments ends the message, and so many are there as it has then.
    fn is_full(&self) -> bool
        ensures message { IsMessage (trees.values self.now.fragments) → IsTrue result }
        ensures some { IsTrue result → 0 < length (trees.values self.now.fragments) }
    {
        match self.fragments.last_key_value() {
            Some((_, last)) => last.is_last && last.place as usize + 1 == self.fragments.len(),
            None => false,
        }
    }

    /// Whether each fragment fits at its place.
    fn fits_each(&self) -> bool
        ensures { IsTrue result ↔ FitEach (trees.values self.now.fragments) }
    {
        let (count, mut place) = (self.fragments.len(), 0usize);
        for fragment in self.fragments.values() {
            if !fits(fragment, place, count) {
                return false;
            }
            place += 1;
        }
        true
    }

    /// Whether the fragments are a message. Each is looked at only where they are as many as the last one says.
    fn is_whole(&self) -> bool
        ensures { IsTrue result ↔ IsMessage (trees.values self.now.fragments) }
    {
        self.is_full() && self.fits_each()
    }

    /// How many bytes of the message came.
    fn byte_count(&self) -> usize {
        let mut count = 0usize;
        for fragment in self.fragments.values() {
            count = count.saturating_add(fragment.bytes.len());
        }
        count
    }
}

impl Lane {
    /// Nothing came yet.
    fn new(alloc: Global, next: Option<u32>) -> Self
        ensures next { result.next ≡ next }
        ensures parts { trees.IsEmpty result.parts }
    {
        Lane {
            next,
            parts: BTreeMap::new(alloc),
        }
    }

    /// Whether a message was read, or passed.
    fn is_passed(&self, number: u32) -> bool
        ensures { result ≡ lanes.is_passed self.now.next number }
    {
        match self.next {
            Some(next) => sna32lt(number, next),
            None => false,
        }
    }

    /// Keeps a fragment of a message. Refuses only for memory.
    fn add(&mut self, alloc: Global, number: u32, fragment: Fragment) -> Result<(), AllocError>
        ensures ok { OnOk result (lanes.Comes number fragment self.old self.new) }
        ensures err { OnErr result
            ((n : ℕ) → lanes.held_at self.new n ≡ lanes.held_at self.old n) }
        ensures next { self.new.next ≡ self.old.next }
    {
        if let Some(part) = self.parts.get_mut(&number) {
            return part.add(fragment);
        }
        let mut part = Part::new(alloc);
        part.add(fragment)?;
        match self.parts.insert(number, part) {
            Ok(_) => Ok(()),
            Err(_) => Err(AllocError),
        }
    }

    /// Whether all fragments of a message are there.
    fn has_whole(&self, number: u32) -> bool
        ensures { IsTrue result ↔ IsMessage (lanes.came self.now number) }
    {
        match self.parts.get(&number) {
            Some(part) => part.is_whole(),
            None => false,
        }
    }

    /// Takes a message out, if it is complete.
    fn read(&mut self, name: Name) -> Option<Whole>
        ensures read { IfSome result (λ m. lanes.IsRead name m self.old self.new) }
        ensures none { IfNone result (IsMessage (lanes.came self.old name.number) → ⊥) }
        ensures stays { IfNone result (self.new ≡ self.old) }
        ensures next { self.new.next ≡ self.old.next }
        ensures fewer { OnSome result
            (trees.btree_map_len self.new.parts < trees.btree_map_len self.old.parts) }
    {
        if !self.has_whole(name.number) {
            return None;
        }
        let part = self.parts.remove(&name.number)?;
        Some(Whole {
            name,
            fragments: part.fragments,
        })
    }

    /// Takes the ordered messages out that are complete, from the next one on. Refuses only for memory.
    fn read_each(&mut self, alloc: Global, stream: u16) -> Result<Vec<Whole>, AllocError>
        ensures read { IfOk result (λ messages.
            lanes.Reads stream messages.items self.old self.new) }
        ensures all { OnOk result (lanes.NoneNext self.new) }
    {
        let mut messages = Vec::new(alloc);
        let Some(first) = self.next else {
            return Ok(messages);
        };
        let mut number = first;
        'reading: while let Some(message) = self.read(ordered(stream, number)) {
            messages.push(message)?;
            number = number.wrapping_add(1);
            self.next = Some(number);
        }
        Ok(messages)
    }

    /// Takes a fragment of a message, and answers the messages that can be read then; of one that was passed there is no answer.
    fn take(
        &mut self,
        alloc: Global,
        name: Name,
        fragment: Fragment,
    ) -> Result<Option<Vec<Whole>>, AllocError>
        ensures { IfOk result (λ answer. lanes.Becomes name fragment
            (option_map (λ messages. messages.items) answer) self.old self.new) }
    {
        if self.is_passed(name.number) {
            return Ok(None);
        }
        self.add(alloc, name.number, fragment)?;
        if name.unordered {
            Ok(Some(self.read_one(alloc, name)?))
        } else {
            Ok(Some(self.read_each(alloc, name.stream)?))
        }
    }

    /// Takes a message out, if it is complete. Refuses only for memory.
    fn read_one(&mut self, alloc: Global, name: Name) -> Result<Vec<Whole>, AllocError>
        ensures { IfOk result (λ messages. lanes.ReadsOne name messages.items self.old self.new) }
    {
        let mut messages = Vec::new(alloc);
        if let Some(message) = self.read(name) {
            messages.push(message)?;
        }
        Ok(messages)
    }

    /// Drops what is held of a message, and answers how many chunks and bytes that are.
    fn lose(&mut self, number: u32, spots: &mut Spots) -> (usize, usize)
        ensures held { (n : ℕ) → lanes.held_at self.new n
            ≡ (if n == number then [] else lanes.held_at self.old n) }
        ensures chunks { result.0 ≡ length (lanes.held_at self.old number) }
        ensures notes { (t : ℕ) → noted.at spots.new t
            ≡ (if has_tsn (lanes.held_at self.old number) t then None else noted.at spots.old t) }
        ensures next { self.new.next ≡ self.old.next }
        ensures fewer { IsSome (trees.get nat_cmp self.old.parts number)
            → trees.btree_map_len self.new.parts < trees.btree_map_len self.old.parts }
    {
        match self.parts.remove(&number) {
            Some(part) => {
                spots.forget_all(&part.fragments);
                (part.fragments.len(), part.byte_count())
            }
            None => (0, 0),
        }
    }

    /// Drops what is held of a message and of those before it. Each step drops one.
    fn lose_each(&mut self, name: Name, spots: &mut Spots) -> Amount
        ensures gone { (n : ℕ) → n < 4294967296 → lanes.held_at self.new n
            ≡ (if at_or_before n name.number then [] else lanes.held_at self.old n) }
        ensures next { self.new.next ≡ self.old.next }
        ensures notes { Leaves (lanes.held_at self.old) (lanes.held_at self.new) []
            spots.old spots.new }
    {
        let mut dropped = Amount::none(name.stream);
        'losing: while let Some(number) = first_up_to(&self.parts, name.number) {
            dropped.add(self.lose(number, spots));
        }
        dropped
    }

    /// Passes the messages up to one: what is held of them is dropped, and the ordered ones behind it are read that are complete. Refuses only
    /// for memory.
    fn skip(&mut self, alloc: Global, name: Name, spots: &mut Spots) -> Result<Passing, AllocError>
        ensures skips { IfOk result (λ passing.
            lanes.Skips name passing.messages.items self.old self.new) }
        ensures notes { IfOk result (λ passing. Leaves (lanes.held_at self.old)
            (lanes.held_at self.new) passing.messages.items spots.old spots.new) }
    {
        let dropped = self.lose_each(name, spots);
        self.next = passed_next(self.next, name.number);
        let messages = self.read_each(alloc, name.stream)?;
        Ok(Passing {
            messages,
            dropped: dropped.listed(alloc)?,
        })
    }

    /// Takes an ordered message out: it is answered if it is complete, or else dropped.
    fn end(&mut self, name: Name, spots: &mut Spots, dropped: &mut Amount) -> Option<Whole>
        ensures read { IfSome result (λ m. lanes.IsRead name m self.old self.new) }
        ensures lost { IfNone result (IsMessage (lanes.came self.old name.number) → ⊥) }
        ensures noted { IfSome result (λ m. spots.new ≡ spots.old) }
        ensures forgotten { IfNone result ((t : ℕ) → noted.at spots.new t
            ≡ (if has_tsn (lanes.held_at self.old name.number) t then None
            else noted.at spots.old t)) }
        ensures held { (n : ℕ) → lanes.held_at self.new n
            ≡ (if n == name.number then [] else lanes.held_at self.old n) }
        ensures next { self.new.next ≡ self.old.next }
        ensures fewer { IsSome (trees.get nat_cmp self.old.parts name.number)
            → trees.btree_map_len self.new.parts < trees.btree_map_len self.old.parts }
    {
        let read = self.read(name);
        if read.is_none() {
            dropped.add(self.lose(name.number, spots));
        }
        read
    }

    /// Ends the ordered messages up to one: those that are complete are read, and the others are dropped. Refuses only for memory.
    #[tactic(auto, using(crate::proofs::Departing::leaves_none))]
    fn end_each(
        &mut self,
        alloc: Global,
        stream: u16,
        last: u32,
        spots: &mut Spots,
    ) -> Result<Seen, AllocError>
        ensures ends { IfOk result (λ seen.
            passing.Ends stream last seen.messages.items self.old self.new) }
        ensures notes { IfOk result (λ seen. Leaves (lanes.held_at self.old)
            (lanes.held_at self.new) seen.messages.items spots.old spots.new) }
    {
        let mut messages = Vec::new(alloc);
        let mut dropped = Amount::none(stream);
        'ending: while let Some(number) = first_up_to(&self.parts, last) {
            if let Some(message) = self.end(ordered(stream, number), spots, &mut dropped) {
                messages.push(message)?;
            }
        }
        self.next = passed_next(self.next, last);
        Ok(Seen { messages, dropped })
    }

    /// Ends the ordered messages before one; unordered ones have no order. Refuses only for memory.
    fn end_before(
        &mut self,
        alloc: Global,
        name: Name,
        spots: &mut Spots,
    ) -> Result<Seen, AllocError>
        ensures unordered { IfOk result (λ seen. name.unordered ≡ true
            → (seen.messages.items ≡ []) × (self.new ≡ self.old)) }
        ensures ordered { IfOk result (λ seen. name.unordered ≡ false
            → passing.Ends name.stream (passing.before name.number) seen.messages.items
            self.old self.new) }
        ensures notes { IfOk result (λ seen. Leaves (lanes.held_at self.old)
            (lanes.held_at self.new) seen.messages.items spots.old spots.new) }
    {
        if !name.unordered {
            return self.end_each(alloc, name.stream, name.number.wrapping_sub(1), spots);
        }
        Ok(Seen::nothing(alloc, name.stream))
    }

    /// Whether a fragment before a place did not come, of a message that is held.
    fn lacks_before(&self, number: u32, place: u32) -> bool
        ensures { result
            ≡ passing.lacks_before (trees.get nat_cmp self.now.parts number) place }
    {
        match self.parts.get(&number) {
            Some(part) => place > 0 && !part.fragments.contains_key(&(place - 1)),
            None => false,
        }
    }

    /// Drops a message and passes it, where the fragment before this one did not come.
    fn lose_lacking(&mut self, spot: &Spot, spots: &mut Spots, dropped: &mut Amount)
        ensures lost { passing.lacks_before
            (trees.get nat_cmp self.old.parts spot.now.name.number) spot.now.place ≡ true
            → passing.IsLost spot.now.name.number self.old self.new }
        ensures kept { passing.lacks_before
            (trees.get nat_cmp self.old.parts spot.now.name.number) spot.now.place ≡ false
            → self.new ≡ self.old }
        ensures notes { Leaves (lanes.held_at self.old) (lanes.held_at self.new) []
            spots.old spots.new }
    {
        let number = spot.name.number;
        if self.lacks_before(number, spot.place) {
            dropped.add(self.lose(number, spots));
            self.next = passed_next(self.next, number);
        }
    }

    /// Looks at a fragment where no TSN before its own one will come. Ordered messages before its message are over. So is that one, if the fragment
    /// before it did not come. The messages that waited for them are read. Refuses only for memory.
    fn see(&mut self, alloc: Global, spot: &Spot, spots: &mut Spots) -> Result<Seen, AllocError>
        ensures looks { IfOk result (λ seen.
            passing.Looks spot.now seen.messages.items self.old self.new) }
        ensures notes { IfOk result (λ seen. Leaves (lanes.held_at self.old)
            (lanes.held_at self.new) seen.messages.items spots.old spots.new) }
    {
        let name = spot.name;
        if !self.parts.contains_key(&name.number) {
            return Ok(Seen::nothing(alloc, name.stream));
        }
        let mut seen = self.end_before(alloc, name, spots)?;
        self.lose_lacking(spot, spots, &mut seen.dropped);
        let mut read = self.read_each(alloc, name.stream)?;
        seen.messages.append(&mut read)?;
        Ok(seen)
    }

    /// How much is held.
    fn amount(&self, stream: u16) -> Amount {
        let (mut chunks, mut bytes) = (0usize, 0usize);
        for part in self.parts.values() {
            chunks = chunks.saturating_add(part.fragments.len());
            bytes = bytes.saturating_add(part.byte_count());
        }
        Amount {
            stream,
            chunks,
            bytes,
        }
    }
}

/// The number of the next ordered message, where those up to a number are passed.
fn passed_next(next: Option<u32>, number: u32) -> Option<u32>
    ensures { result ≡ lanes.passed_next next number }
{
    match next {
        Some(next) if !sna32lte(next, number) => Some(next),
        Some(_) => Some(number.wrapping_add(1)),
        None => None,
    }
}

/// The name of an ordered message.
fn ordered(stream: u16, number: u32) -> Name
    ensures { result ≡ lanes.ordered stream number }
{
    Name {
        stream,
        unordered: false,
        number,
    }
}

/// The key of a stream's ordered messages, or of its unordered ones.
fn key_of(stream: u16, unordered: bool) -> u32
    ensures { result ≡ stream * 2 + (if unordered then 1 else 0) }
{
    stream as u32 * 2 + if unordered { 1 } else { 0 }
}

/// The first number of ordered messages: 0, or, where the beginning of the way was not captured, that of the first message of which the beginning
/// may come. Unordered ones have none.
fn first_next(is_whole: bool, name: Name, place: u32) -> Option<u32>
    ensures { result ≡ lanes.first_next is_whole name place }
{
    if name.unordered {
        return None;
    }
    if is_whole {
        return Some(0);
    }
    Some(name.number.wrapping_add(if place == 0 { 0 } else { 1 }))
}

impl Interleaved {
    /// Nothing came yet.
    pub fn new(alloc: Global, is_whole: bool) -> Self {
        Interleaved {
            lanes: BTreeMap::new(alloc),
            spots: Spots::new(alloc),
            is_whole,
        }
    }

    /// Takes a fragment of a message whose TSN is new, and answers the messages that can be read: an unordered one once it is complete, ordered
    /// ones in the order of their numbers. Of a message that was passed there is no answer. Refuses only for memory.
    pub fn take(
        &mut self,
        alloc: Global,
        name: Name,
        fragment: Fragment,
    ) -> Result<Option<Vec<Whole>>, AllocError>
        ensures answers { IfOk result (λ answer. lanes.Answers self.old.is_whole name fragment
            (option_map (λ messages. messages.items) answer)
            (trees.get nat_cmp self.old.lanes (lanes.key_of name))
            (trees.get nat_cmp self.new.lanes (lanes.key_of name))) }
        ensures others { OnOk result ((k : ℕ) → nat_eq k (lanes.key_of name) ≡ false
            → trees.get nat_cmp self.new.lanes k ≡ trees.get nat_cmp self.old.lanes k) }
        ensures notes { IfOk result (λ answer. noted.Notes name fragment
            (option_map (λ messages. messages.items) answer) self.old.spots self.new.spots) }
        ensures whole { self.new.is_whole ≡ self.old.is_whole }
    {
        let tsn = fragment.tsn;
        self.spots.add(name, &fragment)?;
        let answer = self.take_in(alloc, name, fragment);
        match &answer {
            Ok(Some(messages)) => self.spots.forget_read(messages),
            Ok(None) | Err(_) => self.spots.forget(tsn),
        }
        answer
    }

    /// The same, on the lane of the message.
    fn take_in(
        &mut self,
        alloc: Global,
        name: Name,
        fragment: Fragment,
    ) -> Result<Option<Vec<Whole>>, AllocError>
        ensures answers { IfOk result (λ answer. lanes.Answers self.old.is_whole name fragment
            (option_map (λ messages. messages.items) answer)
            (trees.get nat_cmp self.old.lanes (lanes.key_of name))
            (trees.get nat_cmp self.new.lanes (lanes.key_of name))) }
        ensures others { OnOk result ((k : ℕ) → nat_eq k (lanes.key_of name) ≡ false
            → trees.get nat_cmp self.new.lanes k ≡ trees.get nat_cmp self.old.lanes k) }
        ensures spots { self.new.spots ≡ self.old.spots }
        ensures whole { self.new.is_whole ≡ self.old.is_whole }
    {
        let key = key_of(name.stream, name.unordered);
        if let Some(lane) = self.lanes.get_mut(&key) {
            return lane.take(alloc, name, fragment);
        }
        let mut lane = Lane::new(alloc, first_next(self.is_whole, name, fragment.place));
        let answer = lane.take(alloc, name, fragment)?;
        match self.lanes.insert(key, lane) {
            Ok(_) => Ok(answer),
            Err(_) => Err(AllocError),
        }
    }

    /// Passes the messages up to one that an I-FORWARD-TSN names (RFC 8260 2.3.1): what is held of them is dropped, and the ordered ones behind it
    /// are read that are complete. Refuses only for memory.
    pub fn skip(&mut self, alloc: Global, name: Name) -> Result<Passing, AllocError>
        ensures answers { IfOk result (λ passing.
            lanes.IsSkipped self.old.is_whole name passing.messages.items
            (trees.get nat_cmp self.old.lanes (lanes.key_of name))
            (trees.get nat_cmp self.new.lanes (lanes.key_of name))) }
        ensures others { OnOk result ((k : ℕ) → nat_eq k (lanes.key_of name) ≡ false
            → trees.get nat_cmp self.new.lanes k ≡ trees.get nat_cmp self.old.lanes k) }
        ensures notes { OnOk result (Forgets none_due (held_of self.old.lanes)
            (held_of self.new.lanes) self.old.spots self.new.spots) }
        ensures whole { self.new.is_whole ≡ self.old.is_whole }
    {
        let passing = self.skip_in(alloc, name)?;
        self.spots.forget_read(&passing.messages);
        Ok(passing)
    }

    /// The same, on the lane of the message.
    fn skip_in(&mut self, alloc: Global, name: Name) -> Result<Passing, AllocError>
        ensures answers { IfOk result (λ passing.
            lanes.IsSkipped self.old.is_whole name passing.messages.items
            (trees.get nat_cmp self.old.lanes (lanes.key_of name))
            (trees.get nat_cmp self.new.lanes (lanes.key_of name))) }
        ensures others { OnOk result ((k : ℕ) → nat_eq k (lanes.key_of name) ≡ false
            → trees.get nat_cmp self.new.lanes k ≡ trees.get nat_cmp self.old.lanes k) }
        ensures notes { IfOk result (λ passing. Leaves (held_of self.old.lanes)
            (held_of self.new.lanes) passing.messages.items self.old.spots self.new.spots) }
        ensures whole { self.new.is_whole ≡ self.old.is_whole }
    {
        let key = key_of(name.stream, name.unordered);
        if let Some(lane) = self.lanes.get_mut(&key) {
            return lane.skip(alloc, name, &mut self.spots);
        }
        let mut opened = Lane::new(alloc, first_next(self.is_whole, name, 1));
        let passing = opened.skip(alloc, name, &mut self.spots)?;
        match self.lanes.insert(key, opened) {
            Ok(_) => Ok(passing),
            Err(_) => Err(AllocError),
        }
    }

    /// Looks at a fragment as `Lane::see` does; there may be no such lane any more.
    fn see(&mut self, alloc: Global, spot: &Spot) -> Result<Seen, AllocError>
        ensures looks { IfOk result (λ seen.
            passing.LooksAt spot.now seen.messages.items self.old.lanes self.new.lanes) }
        ensures notes { IfOk result (λ seen. Leaves (held_of self.old.lanes)
            (held_of self.new.lanes) seen.messages.items self.old.spots self.new.spots) }
        ensures whole { self.new.is_whole ≡ self.old.is_whole }
    {
        let key = key_of(spot.name.stream, spot.name.unordered);
        match self.lanes.get_mut(&key) {
            Some(lane) => lane.see(alloc, spot, &mut self.spots),
            None => Ok(Seen::nothing(alloc, spot.name.stream)),
        }
    }

    /// Passes what cannot become complete any more where no TSN up to this one will come: each fragment up to right behind it is looked at, once.
    /// Refuses only for memory.
    pub fn pass(&mut self, alloc: Global, tsn: u32) -> Result<Passing, AllocError>
        ensures passes { IfOk result (λ gained.
            passing.Passes tsn gained.messages.items self.old self.new) }
        ensures notes { OnOk result (Forgets (λ t. at_or_before t ((tsn + 1) % 4294967296))
            (held_of self.old.lanes) (held_of self.new.lanes) self.old.spots self.new.spots) }
        ensures whole { self.new.is_whole ≡ self.old.is_whole }
    {
        let mut messages = Vec::new(alloc);
        let mut amounts = BTreeMap::new(alloc);
        let due = self.spots.pop_each(alloc, tsn.wrapping_add(1))?;
        for (_, spot) in &due {
            let mut seen = self.see(alloc, spot)?;
            note_dropped(&mut amounts, &spot.name, seen.dropped)?;
            messages.append(&mut seen.messages)?;
        }
        self.spots.forget_read(&messages);
        Ok(Passing {
            messages,
            dropped: listed(alloc, &amounts)?,
        })
    }

    /// Begins the numbers of a lane anew.
    fn reset_lane(&mut self, key: u32) {
        let Some(lane) = self.lanes.remove(&key) else {
            return;
        };
        for part in lane.parts.values() {
            self.spots.forget_all(&part.fragments);
        }
    }

    /// Begins the numbers of a stream anew (RFC 8260 2.3.1, RFC 6525 5.2.2).
    pub fn reset(&mut self, stream: u16) {
        self.reset_lane(key_of(stream, false));
        self.reset_lane(key_of(stream, true));
    }

    /// How much is held of each stream. Refuses only for memory.
    pub fn held(&self, alloc: Global) -> Result<Vec<Amount>, AllocError> {
        let mut held = Vec::new(alloc);
        for (key, lane) in &self.lanes {
            let amount = lane.amount(u16::try_from(*key / 2).unwrap_or(0));
            if amount.chunks > 0 {
                held.push(amount)?;
            }
        }
        Ok(held)
    }
}

impl Amount {
    /// Nothing of a stream.
    fn none(stream: u16) -> Self {
        Amount {
            stream,
            chunks: 0,
            bytes: 0,
        }
    }

    /// Adds chunks and bytes.
    fn add(&mut self, more: (usize, usize)) {
        self.chunks = self.chunks.saturating_add(more.0);
        self.bytes = self.bytes.saturating_add(more.1);
    }

    /// A list of it, or of nothing. Refuses only for memory.
    fn listed(&self, alloc: Global) -> Result<Vec<Amount>, AllocError> {
        let mut list = Vec::new(alloc);
        if self.chunks > 0 {
            list.push(*self)?;
        }
        Ok(list)
    }
}

/// Adds what is dropped to what was dropped before of the lane of a message. Refuses only for memory.
fn note_dropped(
    amounts: &mut BTreeMap<u32, Amount>,
    name: &Name,
    dropped: Amount,
) -> Result<(), AllocError> {
    let key = key_of(name.stream, name.unordered);
    let mut sum = dropped;
    if let Some(before) = amounts.get(&key) {
        sum.add((before.chunks, before.bytes));
    }
    match amounts.insert(key, sum) {
        Ok(_) => Ok(()),
        Err(_) => Err(AllocError),
    }
}

/// What is dropped of each lane of which anything is. Refuses only for memory.
fn listed(alloc: Global, amounts: &BTreeMap<u32, Amount>) -> Result<Vec<Amount>, AllocError> {
    let mut list = Vec::new(alloc);
    for amount in amounts.values() {
        if amount.chunks > 0 {
            list.push(*amount)?;
        }
    }
    Ok(list)
}
