//! Chunks that wait in a line: first in, first out. What puts and takes one is inlined, as are the calls above, so that a
//! chunk is made where it waits, and what a caller does not read of it is not copied out.

ghost use Rattle.std.specs.Prelude.{◌≡◌, ◌==◌, ◌+◌, ◌-◌, ◌^◌, ◌<◌, ◌≤◌, ◌++◌, [], ◌∷◌, length, map, max, OnOk, OnErr, IfSome, IfNone, IsOk, IsOkUnless, option_copied, slice_get, take, true, false};
ghost use Rattle.std.specs.List.{All, list_any, filter};
ghost use Rattle.std.specs.VecDeque.{deque_capacity, deque_len};
ghost use Rattle.sctp_util.specs.declared.error.Error.TheVariants.{ErrOutOfMemory};
ghost use Rattle.sctp_util.specs.Lists.{change_where};
ghost use Rattle.sctp_outbound.specs.Marks.{is_of};
ghost use Rattle.sctp_outbound.specs.outbound_queue.OutboundQueue.{with_message_id};
ghost use Rattle.sctp_outbound.specs.pending_queue.PendingQueue.{removed_bytes, last_of, without_message, lower_by, is_to_start, with_deadline, has_lifetime};
ghost use Rattle.sctp_outbound.specs.pending_queue.Whole.{AreWhole, NumbersAscend, begins_with, begun, stand_in_front, until_end};
ghost use Rattle.sctp_serial.specs.DataChunks.{bytes_of, is_on};

use crate::payload_queue::held::MUCH;
use sctp_data::chunk::chunk_payload_data::{
    ChunkPayloadData, PayloadProtocolIdentifier, ReliabilityType,
};
use sctp_util::error::Result;
use std::alloc::Global;
use std::collections::VecDeque;
use std::marker::Model;

// For how many chunks a line keeps memory when it gives back much.
const KEPT: usize = 16;

/// Chunks in the order in which they came. The next `room` pushes take no memory.
#[derive(Drop)]
pub(crate) struct Line {
    chunks: VecDeque<ChunkPayloadData>,
    n_bytes: usize,
    room: usize,
}

impl Model for Line {
    ghost use Rattle.std.specs.Prelude.{◌≡◌, ◌+◌, ◌≤◌};
    ghost use Rattle.std.specs.VecDeque.{deque_capacity, deque_len};
    ghost use Rattle.sctp_outbound.specs.Stored.{Stored};
    ghost use Rattle.sctp_serial.specs.DataChunks.{bytes_of};

    ghost Value = { Stored };

    ghost view = { λ l. record { chunks = l.chunks.items; room = l.room } };

    ghost invariant = { λ l. record {
      counted : l.n_bytes ≡ bytes_of l.chunks.items;
      fits : deque_len l.chunks + l.room ≤ deque_capacity l.chunks;
    } };
}

impl Line {
    ghost use Rattle.sctp_outbound.specs.Stored.{with_chunks};

    /// No chunks. It takes no memory.
    pub(crate) fn new(alloc: Global) -> Self
        ensures { result ≡ record { chunks = []; room = 0 } }
    {
        Line {
            chunks: VecDeque::new(alloc),
            n_bytes: 0,
            room: 0,
        }
    }

    /// How many chunks wait.
    pub(crate) fn len(&self) -> usize
        ensures value { result ≡ length self.now.chunks }
        ensures bound { result < 2 ^ 63 }
    {
        self.chunks.len()
    }

    /// The bytes of user data of all.
    pub(crate) fn get_num_bytes(&self) -> usize
        ensures { result ≡ bytes_of self.now.chunks }
    {
        self.n_bytes
    }

    /// The chunk at a place, counted from the front.
    pub(crate) fn get(&self, place: usize) -> Option<&ChunkPayloadData>
        ensures { option_copied result ≡ slice_get self.now.chunks place }
    {
        self.chunks.get(place)
    }

    /// How many chunks the rest of the message in front has, where they are at most `most`: a look at that place, then a search by
    /// halves.
    /// Precondition: the rest of the message is in front, and complete messages of other numbers are behind it.
    pub(crate) fn until_end(&self, message_id: u64, most: usize) -> Option<usize>
        requires { AreWhole false (begun message_id) self.now.chunks }
        ensures some { IfSome result (λ n. (n ≡ until_end self.now.chunks) × (n ≤ most)) }
        ensures none { IfNone result (most < until_end self.now.chunks) }
    {
        let len = self.chunks.len();
        if most < len && self.chunks[most].message_id == message_id {
            return None;
        }
        let mut low = 0;
        let mut high = most.min(len);
        while low < high {
            let middle = low + (high - low) / 2;
            if self.chunks[middle].message_id == message_id {
                low = middle + 1;
            } else {
                high = middle;
            }
        }
        Some(low)
    }

    /// From here on `additional` pushes take no memory.
    /// Refuses only for memory, and nothing changes then.
    pub(crate) fn reserve(&mut self, additional: usize) -> Result<()>
        ensures ok { OnOk result (self.new
            ≡ record self.old { room = max additional self.old.room }) }
        ensures err { OnErr result (self.new ≡ self.old) }
        ensures memory { IsOkUnless result ErrOutOfMemory }
        ensures succeeds { additional ≤ self.old.room → IsOk result }
    {
        if additional <= self.room {
            return Ok(());
        }
        self.chunks.reserve(additional)?;
        self.room = additional;
        Ok(())
    }

    /// How many pushes take no memory.
    pub(crate) fn room(&self) -> usize
        ensures { result ≡ self.now.room }
    {
        self.room
    }

    /// Counts on no more room than this.
    /// Precondition: it is at most the room.
    pub(crate) fn keep_room(&mut self, room: usize)
        requires { room ≤ self.old.room }
        ensures { self.new ≡ record self.old { room = room } }
    {
        self.room = room;
    }

    /// Puts a chunk behind the others.
    /// Precondition: the bytes of all are fewer than 2^64.
    /// Refuses only for memory, and never within the room. Nothing changes then.
    #[inline(always)]
    pub(crate) fn push_back(&mut self, chunk: ChunkPayloadData) -> Result<()>
        requires { bytes_of self.old.chunks + length chunk.user_data < 2 ^ 64 }
        ensures ok { OnOk result (self.new
            ≡ record { chunks = self.old.chunks ++ chunk ∷ []; room = self.old.room - 1 }) }
        ensures err { OnErr result (self.new ≡ self.old) }
        ensures memory { IsOkUnless result ErrOutOfMemory }
        ensures succeeds { 0 < self.old.room → IsOk result }
    {
        let len = chunk.user_data.len();
        self.chunks.reserve(1)?;
        self.chunks.push_back_reserved(chunk);
        if self.room > 0 {
            self.room -= 1;
        }
        self.n_bytes += len;
        Ok(())
    }

    /// Puts the fragments of a message behind, under its number.
    /// Precondition: the bytes of all are fewer than 2^64.
    /// Refuses only for memory, and never within the room. Nothing changes then.
    #[inline(always)]
    pub(crate) fn append(
        &mut self,
        mut chunks: Vec<ChunkPayloadData>,
        message_id: u64,
    ) -> Result<()>
        requires { bytes_of self.old.chunks + bytes_of chunks.items < 2 ^ 64 }
        ensures ok { OnOk result (self.new
            ≡ record {
              chunks = self.old.chunks ++ map (with_message_id message_id) chunks.items;
              room = self.old.room - length chunks.items;
            }) }
        ensures bytes { OnOk result (bytes_of self.new.chunks
            ≡ bytes_of self.old.chunks + bytes_of chunks.items) }
        ensures err { OnErr result (self.new ≡ self.old) }
        ensures memory { IsOkUnless result ErrOutOfMemory }
        ensures succeeds { length chunks.items ≤ self.old.room → IsOk result }
    {
        if chunks.len() != 1 {
            self.reserve(chunks.len())?;
            self.append_within_room(chunks, message_id);
            return Ok(());
        }
        // numbered and counted where it is, so that it is copied once, from there to its place
        chunks[0].message_id = message_id;
        let len = chunks[0].user_data.len();
        self.chunks.reserve(1)?;
        match chunks.pop() {
            Some(chunk) => self.chunks.push_back_reserved(chunk),
            None => unreachable!(),
        }
        if self.room > 0 {
            self.room -= 1;
        }
        self.n_bytes += len;
        Ok(())
    }

    // Puts the fragments of a message behind, under its number. There is room for them.
    #[inline(never)]
    fn append_within_room(&mut self, chunks: Vec<ChunkPayloadData>, message_id: u64)
        requires bytes { bytes_of self.old.chunks + bytes_of chunks.items < 2 ^ 64 }
        requires room { length chunks.items ≤ self.old.room }
        ensures added { self.new
            ≡ record {
              chunks = self.old.chunks ++ map (with_message_id message_id) chunks.items;
              room = self.old.room - length chunks.items;
            } }
        ensures bytes { bytes_of self.new.chunks
            ≡ bytes_of self.old.chunks + bytes_of chunks.items }
    {
        let mut rest = VecDeque::from_vec(chunks);
        while let Some(mut chunk) = rest.pop_front() {
            chunk.message_id = message_id;
            self.push_within_room(chunk);
        }
    }

    // Puts a chunk behind the others, for which there is room.
    fn push_within_room(&mut self, chunk: ChunkPayloadData)
        requires bytes { bytes_of self.old.chunks + length chunk.user_data < 2 ^ 64 }
        requires room { 0 < self.old.room }
        ensures { self.new
            ≡ record { chunks = self.old.chunks ++ chunk ∷ []; room = self.old.room - 1 } }
    {
        self.n_bytes += chunk.user_data.len();
        self.room -= 1;
        self.chunks.push_back_reserved(chunk);
    }

    /// Takes out the first chunk; None where there are none.
    pub(crate) fn pop_front(&mut self) -> Option<ChunkPayloadData>
        ensures popped { IfSome result (λ chunk. self.old
            ≡ with_chunks self.new (chunk ∷ self.new.chunks)) }
        ensures empty { IfNone result ((self.old.chunks ≡ []) × (self.new ≡ self.old)) }
    {
        if self.chunks.is_empty() {
            return None;
        }
        Some(self.take_front())
    }

    /// Takes out the first chunk.
    /// Precondition: there is one.
    #[inline(always)]
    pub(crate) fn take_front(&mut self) -> ChunkPayloadData
        requires { 0 < length self.old.chunks }
        ensures { self.old ≡ with_chunks self.new (result ∷ self.new.chunks) }
    {
        self.give_back();
        match self.chunks.pop_front() {
            Some(chunk) => {
                self.n_bytes -= chunk.user_data.len();
                chunk
            }
            None => unreachable!(),
        }
    }

    // Takes out the first chunk, if it is of the message.
    fn pop_front_of(&mut self, message_id: u64) -> Option<ChunkPayloadData>
        ensures popped { IfSome result (λ chunk. (self.old
            ≡ with_chunks self.new (chunk ∷ self.new.chunks)) × (is_of message_id chunk ≡ true)) }
        ensures other { IfNone result ((begins_with message_id self.old.chunks ≡ false)
            × (self.new ≡ self.old)) }
    {
        let chunk = self.chunks.front()?;
        if chunk.message_id != message_id {
            return None;
        }
        self.pop_front()
    }

    /// Takes out what stands in front of a message, and answers its bytes and the last of it. It looks at that, and at the next chunk.
    /// Precondition: no chunk of the message stands behind one of another.
    pub(crate) fn pop_message(&mut self, message_id: u64) -> (usize, Option<ChunkPayloadData>)
        requires { stand_in_front message_id self.old.chunks ≡ true }
        ensures bytes { result.0 ≡ removed_bytes message_id self.old.chunks }
        ensures left { bytes_of self.new.chunks + result.0 ≡ bytes_of self.old.chunks }
        ensures last { result.1 ≡ last_of (filter (is_of message_id) self.old.chunks) }
        ensures rest { self.new
            ≡ with_chunks self.old (without_message message_id self.old.chunks) }
    {
        let before = self.get_num_bytes();
        let mut last = None;
        while let Some(chunk) = self.pop_front_of(message_id) {
            last = Some(chunk);
        }
        (before - self.get_num_bytes(), last)
    }

    // Gives back memory where at most one chunk waits, and memory is much: also for more than four times the room.
    fn give_back(&mut self)
        ensures { self.new ≡ self.old }
    {
        if self.chunks.len() > 1 {
            return;
        }
        let capacity = self.chunks.capacity();
        if capacity > MUCH && capacity / 4 > self.room {
            self.shrink();
        }
    }

    // Gives back memory: all but that for `KEPT` chunks, and for those that wait and the room.
    #[cold]
    #[inline(never)]
    fn shrink(&mut self)
        ensures { self.new ≡ self.old }
    {
        let least = self.chunks.len() + self.room;
        self.chunks.shrink_to(KEPT.max(least));
    }

    /// Removes what waits of a message, and answers its bytes and the last of it.
    pub(crate) fn remove_message(&mut self, message_id: u64) -> (usize, Option<ChunkPayloadData>)
        ensures bytes { result.0 ≡ removed_bytes message_id self.old.chunks }
        ensures left { bytes_of self.new.chunks + result.0 ≡ bytes_of self.old.chunks }
        ensures last { result.1 ≡ last_of (filter (is_of message_id) self.old.chunks) }
        ensures rest { self.new
            ≡ with_chunks self.old (without_message message_id self.old.chunks) }
    {
        let (bytes, last) = remove_from(&mut self.chunks, message_id);
        self.n_bytes -= bytes;
        self.give_back();
        (bytes, last)
    }

    /// Lowers the stream sequence numbers of a stream by so many.
    pub(crate) fn lower_ssns(&mut self, stream_identifier: u16, by: u16)
        ensures lowered { self.new ≡ with_chunks self.old
            (change_where (is_on stream_identifier) (lower_by by) self.old.chunks) }
        ensures bytes { bytes_of self.new.chunks ≡ bytes_of self.old.chunks }
    {
        // in one slice, so that the walk tests no wrap
        lower_ssns_in(self.chunks.make_contiguous(), stream_identifier, by);
    }

    /// Starts the lifetimes of timed messages numbered from `first_message_id` on
    /// that have no deadline yet. `now` is in nanoseconds.
    pub(crate) fn start_timed_messages(&mut self, first_message_id: u64, now: u64)
        ensures started { self.new ≡ with_chunks self.old
            (change_where (is_to_start first_message_id) (with_deadline now) self.old.chunks) }
        ensures bytes { bytes_of self.new.chunks ≡ bytes_of self.old.chunks }
    {
        start_in(&mut self.chunks, 0, first_message_id, now);
    }

    /// The same where numbers ascend: it looks at the messages numbered so, and at the last chunk before them.
    /// Precondition: they do. `now` is in nanoseconds.
    pub(crate) fn start_latest_messages(&mut self, first_message_id: u64, now: u64)
        requires { NumbersAscend self.old.chunks }
        ensures started { self.new ≡ with_chunks self.old
            (change_where (is_to_start first_message_id) (with_deadline now) self.old.chunks) }
        ensures bytes { bytes_of self.new.chunks ≡ bytes_of self.old.chunks }
    {
        let from = place_of(&self.chunks, first_message_id);
        start_in(&mut self.chunks, from, first_message_id, now);
    }

    /// Whether a chunk of the message waits.
    pub(crate) fn contains_message(&self, message_id: u64) -> bool
        ensures { result ≡ list_any (is_of message_id) self.now.chunks }
    {
        self.chunks
            .iter()
            .any(|chunk| chunk.message_id == message_id)
    }

    /// Whether a chunk of the stream waits.
    pub(crate) fn contains_stream(&self, stream_identifier: u16) -> bool
        ensures { result ≡ list_any (is_on stream_identifier) self.now.chunks }
    {
        self.chunks
            .iter()
            .any(|chunk| chunk.stream_identifier == stream_identifier)
    }
}

// Removes what is of the message, in order, and answers its bytes and the last of it.
fn remove_from(
    chunks: &mut VecDeque<ChunkPayloadData>,
    message_id: u64,
) -> (usize, Option<ChunkPayloadData>)
    requires { bytes_of chunks.old.items < 2 ^ 64 }
    ensures bytes { result.0 ≡ removed_bytes message_id chunks.old.items }
    ensures left { bytes_of chunks.new.items + result.0 ≡ bytes_of chunks.old.items }
    ensures last { result.1 ≡ last_of (filter (is_of message_id) chunks.old.items) }
    ensures rest { chunks.new.items ≡ without_message message_id chunks.old.items }
    ensures len { deque_len chunks.new ≤ deque_len chunks.old }
    ensures capacity { deque_capacity chunks.new ≡ deque_capacity chunks.old }
{
    let mut bytes = 0;
    let mut last = None;
    let mut place = 0;
    while place < chunks.len() {
        if chunks[place].message_id != message_id {
            place += 1;
            continue;
        }
        match chunks.remove(place) {
            Some(chunk) => {
                bytes += chunk.user_data.len();
                last = Some(chunk);
            }
            None => unreachable!(),
        }
    }
    (bytes, last)
}

// Lowers the stream sequence numbers of a stream by so many.
fn lower_ssns_in(chunks: &mut [ChunkPayloadData], stream_identifier: u16, by: u16)
    ensures { chunks.new ≡ change_where (is_on stream_identifier) (lower_by by) chunks.old }
{
    for chunk in chunks.iter_mut() {
        if chunk.stream_identifier != stream_identifier {
            continue;
        }
        chunk.stream_sequence_number = chunk.stream_sequence_number.wrapping_sub(by);
    }
}

// Where the chunks of messages numbered from `first_message_id` on begin, sought from the back.
fn place_of(chunks: &VecDeque<ChunkPayloadData>, first_message_id: u64) -> usize
    requires { NumbersAscend chunks.now.items }
    ensures in_range { result ≤ length chunks.now.items }
    ensures before { All (λ c. is_to_start first_message_id c
        ≡ false) (take result chunks.now.items) }
{
    let mut place = chunks.len();
    while place > 0 {
        if chunks[place - 1].message_id < first_message_id {
            return place;
        }
        place -= 1;
    }
    0
}

// Sets the deadlines of timed messages that have none. There are no such messages before `from`.
fn start_in(chunks: &mut VecDeque<ChunkPayloadData>, from: usize, first_message_id: u64, now: u64)
    requires in_range { from ≤ length chunks.old.items }
    requires before { All (λ c. is_to_start first_message_id c
        ≡ false) (take from chunks.old.items) }
    ensures items { chunks.new.items
        ≡ change_where (is_to_start first_message_id) (with_deadline now) chunks.old.items }
    ensures len { deque_len chunks.new ≡ deque_len chunks.old }
    ensures capacity { deque_capacity chunks.new ≡ deque_capacity chunks.old }
{
    for place in from..chunks.len() {
        let chunk = &mut chunks[place];
        if !is_to_start(chunk, first_message_id) {
            continue;
        }
        chunk.deadline = deadline_of(chunk, now);
    }
}

// Whether the chunk is of a timed message numbered from `first_message_id` on, and has no deadline yet. DCEP messages never get one.
fn is_to_start(chunk: &ChunkPayloadData, first_message_id: u64) -> bool
    ensures { result ≡ is_to_start first_message_id chunk.now }
{
    chunk.message_id >= first_message_id
        && chunk.deadline.is_none()
        && !chunk.payload_type.is_dcep()
        && has_lifetime(chunk.reliability)
}

// The end of a timed chunk's lifetime, where that is a moment.
fn deadline_of(chunk: &ChunkPayloadData, now: u64) -> Option<u64>
    ensures { result ≡ (with_deadline now chunk.now).deadline }
{
    let milliseconds = match chunk.reliability {
        Some((_, lifetime)) => u64::from(lifetime),
        None => 0,
    };
    now.checked_add(milliseconds * 1_000_000)
}

// Whether there is a lifetime.
fn has_lifetime(reliability: Option<(ReliabilityType, u32)>) -> bool
    ensures { result ≡ has_lifetime reliability }
{
    match reliability {
        Some((ReliabilityType::Timed, _)) => true,
        _ => false,
    }
}
