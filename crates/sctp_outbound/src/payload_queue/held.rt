//! Held chunks: a slab of them, and a deque of their TSNs and keys in order, so that a search reads TSNs alone and an edit moves no chunk.
//! `look`, `see`, `tsn_at`, `tsn_or`, `mark` and `take_back` take a turn each, and `settle_earliest` one for each chunk. `front_tsn` takes
//! none, nor do `insert` and the removals of what was looked at; `tsns` hands out no TSN but by `tsn_or` and `tsn_at`.

ghost use Rattle.std.specs.Prelude.{◌≡◌, ◌==◌, ◌+◌, ◌-◌, ◌^◌, ◌<◌, ◌≤◌, [], ◌∷◌, false, length, map, max, min, insert, remove, slice_get, slice_index_or, slice_set, OnOk, OnErr, IfSome, IfNone, IsOk, IsOkUnless};
ghost use Rattle.std.specs.Option.{option_map};
ghost use Rattle.std.specs.VecDeque.{deque_capacity, deque_len};
ghost use Rattle.slab.specs.Slab.{HasRoomFor};
ghost use Rattle.sctp_util.specs.declared.error.Error.TheVariants.{ErrOutOfMemory};
ghost use Rattle.sctp_outbound.specs.Outstanding.{HasRoom, IsRecounted};
ghost use Rattle.sctp_outbound.specs.Stored.{IsNotBefore, NoneBefore};

use super::outstanding::Outstanding;
use bytes::Bytes;
use sctp_data::chunk::chunk_payload_data::ChunkPayloadData;
use sctp_serial::turns::Turns;
use sctp_util::error::Result;
use slab::Slab;
use std::alloc::Global;
use std::collections::VecDeque;
use std::marker::Model;

// Lists with memory for more than so many chunks give memory back when they get empty. Others keep theirs, so that few chunks at a
// time take no memory over and over.
pub(crate) const MUCH: usize = 64;

/// What is noted of a chunk in flight, for its sender alone.
#[derive(Clone, Copy, PartialEq, Eq)]
pub(crate) enum Mark {
    /// The peer has it: its bytes go.
    Acknowledged,
    /// Its message is abandoned: its bytes go.
    Abandoned,
    /// Whether it is to be sent again.
    Retransmit(bool),
    /// How often it was sent.
    Nsent(u32),
    /// When it was sent, in nanoseconds.
    Since(Option<u64>),
    /// How many acknowledgements reported it missing.
    MissIndicator(u8),
}

impl Mark {
    ghost use Rattle.sctp_outbound.specs.Marks.{with_mark};

    // The same, and counts the chunk as it is then, in place of what it was.
    // Precondition: the chunk is counted, and there is room for one more.
    fn write_counted(
        self,
        chunk: &mut ChunkPayloadData,
        outstanding: Outstanding,
    ) -> (usize, Outstanding)
        requires { HasRoom outstanding chunk.old (length chunk.old.user_data) }
        ensures changed { chunk.new ≡ with_mark self chunk.old }
        ensures left { result.0 + length (with_mark self chunk.old).user_data
            ≡ length chunk.old.user_data }
        ensures counted { IsRecounted outstanding result.1 chunk.old chunk.new }
    {
        let mut outstanding = outstanding;
        outstanding.uncount(chunk);
        let left = self.write(chunk);
        outstanding.count(chunk);
        (left, outstanding)
    }

    // Writes it in a chunk, and answers how many bytes left.
    fn write(self, chunk: &mut ChunkPayloadData) -> usize
        ensures changed { chunk.new ≡ with_mark self chunk.old }
        ensures left { result + length (with_mark self chunk.old).user_data
            ≡ length chunk.old.user_data }
    {
        match self {
            Mark::Acknowledged => {
                chunk.acked = true;
                chunk.retransmit = false;
                clear(chunk)
            }
            Mark::Abandoned => {
                chunk.abandoned = true;
                chunk.retransmit = false;
                clear(chunk)
            }
            Mark::Retransmit(retransmit) => {
                chunk.retransmit = retransmit;
                0
            }
            Mark::Nsent(nsent) => {
                chunk.nsent = nsent;
                0
            }
            Mark::Since(since) => {
                chunk.since = since;
                0
            }
            Mark::MissIndicator(miss_indicator) => {
                chunk.miss_indicator = miss_indicator;
                0
            }
        }
    }
}

/// Where a chunk is: its TSN, and its key in the slab.
#[derive(Clone, Copy)]
struct Place {
    tsn: u32,
    key: usize,
}

/// What was looked at at a place: a TSN, and the chunk that has it.
#[derive(Drop)]
pub(crate) struct Seen<'a> {
    tsn: u32,
    key: usize,
    slab: &'a Slab<ChunkPayloadData>,
}

impl<'a> Model for Seen<'a> {
    ghost use Rattle.std.specs.Prelude.{◌≡◌, Option, Some};
    ghost use Rattle.std.specs.Option.{option_map};
    ghost use Rattle.slab.specs.Slab.{get};
    ghost use Rattle.sctp_data.specs.declared.chunk.chunk_payload_data.ChunkPayloadData.{ChunkPayloadData};

    ghost Value = { Option ChunkPayloadData };

    ghost view = { λ s. get s.slab.now s.key };

    ghost invariant = { λ s. option_map (λ c. c.tsn) (get s.slab.now s.key) ≡ Some s.tsn };
}

impl<'a> Seen<'a> {
    /// Its TSN.
    #[inline]
    pub(crate) fn tsn(&self) -> u32
        ensures { option_map (λ c. c.tsn) self.now ≡ Some result }
    {
        self.tsn
    }

    /// The chunk.
    #[inline]
    pub(crate) fn chunk(&self) -> &'a ChunkPayloadData
        ensures { Some result.now ≡ self.now }
    {
        &self.slab[self.key]
    }
}

/// The TSNs of chunks by place, in the two slices in which a deque holds them, where a look is short.
#[derive(Drop)]
pub(crate) struct Tsns<'a> {
    front: &'a [Place],
    back: &'a [Place],
}

impl<'a> Model for Tsns<'a> {
    ghost use Rattle.std.specs.Prelude.{ℕ, List, ◌++◌, map};

    ghost Value = { List ℕ };

    ghost view = { λ t. map (λ p. p.tsn) (t.front.now ++ t.back.now) };
}

impl<'a> Tsns<'a> {
    /// Looks at the TSN at a place, which is a turn. Past the last it is `none`.
    #[inline]
    pub(crate) fn tsn_or(&self, place: usize, none: u32, turns: &mut Turns) -> u32
        ensures value { result ≡ slice_index_or self.now place none }
        ensures turn { turns.new ≡ turns.old + 1 }
    {
        turns.tick();
        if place < self.front.len() {
            return self.front[place].tsn;
        }
        let behind = place - self.front.len();
        if behind < self.back.len() {
            return self.back[behind].tsn;
        }
        none
    }

    /// The same where the place has one.
    /// Precondition: it has.
    #[inline(always)]
    pub(crate) fn tsn_at(&self, place: usize, turns: &mut Turns) -> u32
        requires { place < length self.now }
        ensures value { result ≡ slice_index_or self.now place result }
        ensures turn { turns.new ≡ turns.old + 1 }
    {
        turns.tick();
        if place < self.front.len() {
            return self.front[place].tsn;
        }
        self.back[place - self.front.len()].tsn
    }
}

/// Chunks by place, from 0, fewer than 2^64 bytes. The next `room` insertions take no memory. None that is not abandoned has a deadline
/// before `earliest`.
#[derive(Drop)]
pub struct Held {
    places: VecDeque<Place>,
    slab: Slab<ChunkPayloadData>,
    room: usize,
    earliest: u64,
    outstanding: Outstanding,
}

impl Model for Held {
    ghost use Rattle.std.specs.Prelude.{◌≡◌, ◌+◌, ◌^◌, ◌<◌, ◌≤◌, length};
    ghost use Rattle.std.specs.VecDeque.{deque_capacity, deque_len};
    ghost use Rattle.slab.specs.Slab.{HasRoomFor, get};
    ghost use Rattle.sctp_outbound.specs.Outstanding.{Counts};
    ghost use Rattle.sctp_outbound.specs.Stored.{NoneBefore, Stored};
    ghost use Rattle.sctp_outbound.specs.payload_queue.Places.{AreHeldAt, chunks_at};

    ghost Value = { Stored };

    ghost view = { λ h. record { chunks = chunks_at (get h.slab) h.places.items; room = h.room } };

    ghost invariant = { λ h. record {
      fits : deque_len h.places + h.room ≤ deque_capacity h.places;
      slab_fits : HasRoomFor h.slab h.room;
      counted : deque_len h.places ≡ length (chunks_at (get h.slab) h.places.items);
      held : AreHeldAt (get h.slab) h.places.items (chunks_at (get h.slab) h.places.items);
      deadlines : NoneBefore h.earliest (chunks_at (get h.slab) h.places.items);
      outstanding : Counts h.outstanding (chunks_at (get h.slab) h.places.items);
    } };
}

impl Held {
    ghost use Rattle.sctp_outbound.specs.Stored.{with_chunks};
    ghost use Rattle.sctp_outbound.specs.Marks.{as_taken_back, with_mark};
    ghost use Rattle.sctp_outbound.specs.Outstanding.{outstanding_of};
    ghost use Rattle.sctp_serial.specs.DataChunks.{bytes_of};

    /// No chunks. It takes no memory.
    pub fn new(alloc: Global) -> Self
        ensures { result ≡ record { chunks = []; room = 0 } }
    {
        Held {
            places: VecDeque::new(alloc),
            slab: Slab::new(alloc),
            room: 0,
            earliest: u64::MAX,
            outstanding: Outstanding::none(),
        }
    }

    /// How many chunks there are.
    pub fn len(&self) -> usize
        ensures { result ≡ length self.now.chunks }
    {
        self.places.len()
    }

    /// Whether there are none.
    pub fn is_empty(&self) -> bool
        ensures { result ≡ (length self.now.chunks == 0) }
    {
        self.places.is_empty()
    }

    /// How many insertions take no memory.
    pub fn room(&self) -> usize
        ensures { result ≡ self.now.room }
    {
        self.room
    }

    /// Looks at the chunk at a place, which is a turn.
    /// Precondition: the place has one.
    pub fn look<'a>(&'a self, place: usize, turns: &mut Turns) -> &'a ChunkPayloadData
        requires { place < length self.now.chunks }
        ensures value { result.now ≡ slice_index_or self.now.chunks place result.now }
        ensures turn { turns.new ≡ turns.old + 1 }
    {
        self.see(place, turns).chunk()
    }

    /// The same, where the chunk is read only if it is asked for.
    /// Precondition: the place has one.
    #[inline]
    pub(crate) fn see<'a>(&'a self, place: usize, turns: &mut Turns) -> Seen<'a>
        requires { place < length self.now.chunks }
        ensures value { result ≡ slice_get self.now.chunks place }
        ensures turn { turns.new ≡ turns.old + 1 }
    {
        turns.tick();
        let here = self.places[place];
        Seen {
            tsn: here.tsn,
            key: here.key,
            slab: &self.slab,
        }
    }

    /// Looks at the TSN at a place, which is a turn.
    /// Precondition: the place has a chunk.
    pub(crate) fn tsn_at(&self, place: usize, turns: &mut Turns) -> u32
        requires { place < length self.now.chunks }
        ensures value { (d : _) → (slice_index_or self.now.chunks place d).tsn ≡ result }
        ensures turn { turns.new ≡ turns.old + 1 }
    {
        turns.tick();
        self.places[place].tsn
    }

    /// The TSNs of all, to be looked at over and over.
    pub(crate) fn tsns(&self) -> Tsns<'_>
        ensures { result ≡ map (λ c. c.tsn) self.now.chunks }
    {
        let (front, back) = self.places.as_slices();
        Tsns { front, back }
    }

    /// The TSN of the first chunk; None where there are none.
    pub fn front_tsn(&self) -> Option<u32>
        ensures { result ≡ option_map (λ c. c.tsn) (slice_get self.now.chunks 0) }
    {
        match self.places.front() {
            Some(place) => Some(place.tsn),
            None => None,
        }
    }

    /// A moment in nanoseconds before which no chunk that is not abandoned has a deadline: the earliest deadline of all that came since
    /// `settle_earliest`, and of those that it found.
    pub(crate) fn earliest(&self) -> u64
        ensures { NoneBefore result self.now.chunks }
    {
        self.earliest
    }

    /// What of them is outstanding.
    pub(crate) fn outstanding(&self) -> Outstanding
        ensures { result ≡ outstanding_of self.now.chunks }
    {
        self.outstanding
    }

    /// Looks at each chunk, a turn each, so that `earliest` hangs on those alone that are held and not abandoned.
    pub(crate) fn settle_earliest(&mut self, turns: &mut Turns)
        ensures same { self.new ≡ self.old }
        ensures turn { turns.new ≡ turns.old + length self.old.chunks }
    {
        let mut earliest = u64::MAX;
        for place in 0..self.len() {
            earliest = earliest.min(deadline_of(self.look(place, turns)));
        }
        self.earliest = earliest;
    }

    /// From here on `additional` insertions take no memory.
    /// Refuses only for memory, and nothing changes then.
    #[inline(always)]
    pub fn reserve(&mut self, additional: usize) -> Result<()>
        ensures ok { OnOk result (self.new
            ≡ record self.old { room = max additional self.old.room }) }
        ensures err { OnErr result (self.new ≡ self.old) }
        ensures memory { IsOkUnless result ErrOutOfMemory }
        ensures succeeds { additional ≤ self.old.room → IsOk result }
    {
        if additional <= self.room {
            return Ok(());
        }
        self.places.reserve(additional)?;
        reserve_in(&mut self.slab, additional)?;
        self.room = additional;
        Ok(())
    }

    /// Puts a chunk at a place, before the one that is there.
    /// Precondition: the place is at most the number of chunks, and all have fewer than 2^64 bytes with it.
    /// Refuses only for memory, and never within the room. Nothing changes then.
    #[inline(always)]
    pub fn insert(&mut self, place: usize, chunk: ChunkPayloadData) -> Result<()>
        requires place { place ≤ length self.old.chunks }
        requires bytes { bytes_of self.old.chunks + length chunk.user_data < 2 ^ 64 }
        ensures ok { OnOk result (self.new
            ≡ record { chunks = insert self.old.chunks place chunk; room = self.old.room - 1 }) }
        ensures err { OnErr result (self.new ≡ self.old) }
        ensures memory { IsOkUnless result ErrOutOfMemory }
        ensures succeeds { 0 < self.old.room → IsOk result }
    {
        self.reserve(1)?;
        self.insert_within_room(place, chunk);
        Ok(())
    }

    // The same. There is room.
    #[inline(always)]
    fn insert_within_room(&mut self, place: usize, chunk: ChunkPayloadData)
        requires place { place ≤ length self.old.chunks }
        requires bytes { bytes_of self.old.chunks + length chunk.user_data < 2 ^ 64 }
        requires room { 0 < self.old.room }
        ensures { self.new
            ≡ record { chunks = insert self.old.chunks place chunk; room = self.old.room - 1 } }
    {
        let tsn = chunk.tsn;
        self.earliest = self.earliest.min(deadline_of(&chunk));
        self.outstanding.count(&chunk);
        self.room = self.room.saturating_sub(1);
        let key = self.slab.insert_reserved(chunk);
        put_in(&mut self.places, place, Place { tsn, key });
    }

    /// The room is no more than this from here on.
    pub fn limit_room(&mut self, room: usize)
        ensures { self.new ≡ record self.old { room = min room self.old.room } }
    {
        self.room = self.room.min(room);
        self.give_back();
    }

    // Gives back memory where it is much, there is no chunk, and no room.
    fn give_back(&mut self)
        ensures { self.new ≡ self.old }
    {
        if self.places.is_empty() && self.places.capacity() > MUCH && self.room == 0 {
            self.shrink();
        }
    }

    // Gives back all memory: a small list that stayed would stand in the way of lists that grow.
    // Precondition: there is no chunk, and no room.
    #[cold]
    #[inline(never)]
    fn shrink(&mut self)
        requires empty { length self.old.chunks ≡ 0 }
        requires room { self.old.room ≡ 0 }
        ensures { self.new ≡ self.old }
    {
        self.places.shrink_to_fit();
        self.slab.clear();
        self.slab.shrink_to_fit();
    }

    /// Takes out the chunk at a place, which is room then.
    /// Precondition: the place has one.
    #[inline(always)]
    pub fn remove_leaving_room(&mut self, place: usize) -> ChunkPayloadData
        requires { place < length self.old.chunks }
        ensures removed { self.new ≡ record {
          chunks = remove self.old.chunks place;
          room = self.old.room + 1;
        } }
        ensures value { result ≡ slice_index_or self.old.chunks place result }
    {
        let taken = take_from(&mut self.places, place);
        self.room += 1;
        let chunk = self.slab.remove(taken.key);
        self.outstanding.uncount(&chunk);
        chunk
    }

    /// Takes out the chunk at a place. The room stays as it is.
    /// Precondition: the place has one.
    pub fn remove(&mut self, place: usize) -> ChunkPayloadData
        requires { place < length self.old.chunks }
        ensures removed { self.new ≡ with_chunks self.old (remove self.old.chunks place) }
        ensures value { result ≡ slice_index_or self.old.chunks place result }
    {
        let room = self.room;
        let chunk = self.remove_leaving_room(place);
        self.limit_room(room);
        chunk
    }

    /// Marks the chunk at a place, which is a turn, and answers how many bytes left with it.
    /// Precondition: the place has one.
    #[inline(always)]
    pub(crate) fn mark(&mut self, place: usize, mark: Mark, turns: &mut Turns) -> usize
        requires { place < length self.old.chunks }
        ensures changed { (d : _) → self.new ≡ with_chunks self.old (slice_set self.old.chunks place
            (with_mark mark (slice_index_or self.old.chunks place d))) }
        ensures left { (d : _)
            → result + length (with_mark mark (slice_index_or self.old.chunks place d)).user_data
            ≡ length (slice_index_or self.old.chunks place d).user_data }
        ensures turn { turns.new ≡ turns.old + 1 }
    {
        turns.tick();
        let key = self.places[place].key;
        let (left, outstanding) = mark.write_counted(&mut self.slab[key], self.outstanding);
        self.outstanding = outstanding;
        left
    }

    /// Takes back the acknowledgement of the chunk at a place, which is a turn: it has these bytes then. Answers how many it had.
    /// Precondition: the place has one, and all have fewer than 2^64 bytes with these.
    pub(crate) fn take_back(&mut self, place: usize, user_data: Bytes, turns: &mut Turns) -> usize
        requires place { place < length self.old.chunks }
        requires bytes { bytes_of self.old.chunks + length user_data < 2 ^ 64 }
        ensures changed { (d : _) → self.new ≡ with_chunks self.old (slice_set self.old.chunks place
            (as_taken_back user_data (slice_index_or self.old.chunks place d))) }
        ensures had { (d : _)
            → result ≡ length (slice_index_or self.old.chunks place d).user_data }
        ensures turn { turns.new ≡ turns.old + 1 }
    {
        turns.tick();
        let key = self.places[place].key;
        let (had, outstanding) = take_back(&mut self.slab[key], user_data, self.outstanding);
        self.outstanding = outstanding;
        had
    }
}

// Makes room for so many more chunks. It asks here whether there is, so that mostly nothing is called.
#[inline(always)]
fn reserve_in(slab: &mut Slab<ChunkPayloadData>, additional: usize) -> Result<()>
    ensures room { OnOk result (HasRoomFor slab.new additional) }
    ensures succeeds { HasRoomFor slab.old additional → IsOk result }
    ensures memory { IsOkUnless result ErrOutOfMemory }
    ensures capacity { slab.old.capacity ≤ slab.new.capacity }
    ensures rest_kept { slab.new ≡ record slab.old { capacity = slab.new.capacity } }
{
    if slab.capacity() - slab.len() >= additional {
        return Ok(());
    }
    slab.reserve(additional)?;
    Ok(())
}

// Puts a place before the one at an index, mostly behind the last.
fn put_in(places: &mut VecDeque<Place>, at: usize, place: Place)
    requires index { at ≤ deque_len places.old }
    requires room { deque_len places.old < deque_capacity places.old }
    ensures items { places.new.items ≡ insert places.old.items at place }
    ensures len { deque_len places.new ≡ deque_len places.old + 1 }
    ensures capacity { deque_capacity places.old ≤ deque_capacity places.new }
{
    if at == places.len() {
        places.push_back_reserved(place);
        return;
    }
    put_before(places, at, place);
}

// The same where one is there. It stands apart, so that what puts a place behind the last stays small.
#[inline(never)]
fn put_before(places: &mut VecDeque<Place>, at: usize, place: Place)
    requires index { at ≤ deque_len places.old }
    requires room { deque_len places.old < deque_capacity places.old }
    ensures items { places.new.items ≡ insert places.old.items at place }
    ensures len { deque_len places.new ≡ deque_len places.old + 1 }
    ensures capacity { deque_capacity places.old ≤ deque_capacity places.new }
{
    match places.insert(at, place) {
        Ok(()) => (),
        Err(_) => unreachable!(),
    }
}

// Takes out the place at an index, mostly the first.
fn take_from(places: &mut VecDeque<Place>, at: usize) -> Place
    requires { at < deque_len places.old }
    ensures value { result ≡ slice_index_or places.old.items at result }
    ensures items { places.new.items ≡ remove places.old.items at }
    ensures len { deque_len places.new + 1 ≡ deque_len places.old }
    ensures capacity { deque_capacity places.new ≡ deque_capacity places.old }
{
    if at == 0 {
        return match places.pop_front() {
            Some(place) => place,
            None => unreachable!(),
        };
    }
    match places.remove(at) {
        Some(place) => place,
        None => unreachable!(),
    }
}

// The deadline of a chunk that is not abandoned and has one, else the greatest u64.
fn deadline_of(chunk: &ChunkPayloadData) -> u64
    ensures { IsNotBefore result chunk.now }
{
    if chunk.abandoned {
        return u64::MAX;
    }
    chunk.deadline.unwrap_or(u64::MAX)
}

// Takes back the acknowledgement of a chunk: it has these bytes then. Answers how many it had, and counts it as it is then.
// Precondition: the chunk is counted, and there is room for one more of so many bytes.
fn take_back(
    chunk: &mut ChunkPayloadData,
    user_data: Bytes,
    outstanding: Outstanding,
) -> (usize, Outstanding)
    requires { HasRoom outstanding chunk.old (length user_data) }
    ensures back { chunk.new ≡ record chunk.old { acked = false; user_data = user_data } }
    ensures had { result.0 ≡ length chunk.old.user_data }
    ensures counted { IsRecounted outstanding result.1 chunk.old chunk.new }
{
    let mut outstanding = outstanding;
    let len = chunk.user_data.len();
    outstanding.uncount(chunk);
    chunk.acked = false;
    chunk.user_data = user_data;
    outstanding.count(chunk);
    (len, outstanding)
}

// Takes the bytes out of a chunk, and answers how many they were.
fn clear(chunk: &mut ChunkPayloadData) -> usize
    ensures cleared { chunk.new ≡ record chunk.old { user_data = [] } }
    ensures left { result ≡ length chunk.old.user_data }
{
    let len = chunk.user_data.len();
    chunk.user_data.clear();
    len
}
